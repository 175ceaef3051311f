// Rows in lent numbers: each opens with how many numbers follow.
ghost use Rattle.std.specs.Prelude.{◌≡◌, ◌+◌, ◌<◌, ◌≤◌, min, length, get_or};
ghost use Rattle.writer.specs.Rows.{rows_in};

// How many rows stand in these numbers; a last one with numbers missing counts too.
pub(crate) fn count_rows(rows: &[u16]) -> usize
    ensures { (result ≡ length (rows_in rows.now)) × (result ≤ length rows.now) }
{
    let mut count: usize = 0;
    let mut p: usize = 0;
    // The next place comes from the row, so this is no `for`.
    while p < rows.len() {
        p = behind_row(rows, p);
        count += 1;
    }
    count
}

// The place behind the row at p, or the end of all rows if its numbers run past it.
pub(crate) fn behind_row(rows: &[u16], p: usize) -> usize
    requires { p < length rows.now }
    ensures { (result ≡ min (length rows.now) (p + 1 + get_or rows.now p 0)) × (p < result) × (result ≤ length rows.now) }
{
    rows.len().min(p + 1 + rows[p] as usize)
}
