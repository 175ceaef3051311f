// Reads a table of answer books from standard input and adds up the figures of each row of it: it prints the label, what is handed back, and the totals
// after it, with a checksum of all of them. tools/figure_cases.py makes the table and says what each row gives.
#![tactic(auto)]

ghost use Rattle.std.specs.Prelude.{IfOk};
ghost use Rattle.tables.specs.Rows.{TakesSome};

use figures::add_figures;
use reading::{number, part_of};
use std::io;
use tables::{Fields, at_most, checksum_of, for_each_row, read_full, show_item};

// How many totals there are, lent or not.
const TOTALS: usize = 1100;

// Each program over a table has these three lines. One function for them would be called with the size and the closure all the same, and hide what is read.
fn main(rt: HostRuntime) -> io::Result<()> {
    let mut input = [0u8; 131072];
    let n = read_full(&mut rt.stdin(), &mut input)?;
    for_each_row(&input[..n], |row| show_row(&rt, row))
}

// One row: how many totals are lent and the label, the totals before, and the books.
fn show_row(rt: &impl Print, row: &mut Fields<'_>) -> io::Result<()>
    ensures { IfOk result (λ done. TakesSome row.old row.new) }
{
    let lent = number(row.left, 2);
    let label = row.field();
    rt.write_all(part_of(label, 2, label.len()))?;
    let given = row.field();
    show_figures(rt, lent, given, row.field())
}

// The totals before: those given, four bytes each, and 7 for all others.
fn totals_of(given: &[u8]) -> [u32; TOTALS] {
    let mut totals = [7u32; TOTALS];
    for (total, bytes) in totals.iter_mut().zip(given.chunks_exact(4)) {
        *total = Fields { left: bytes }.long_number();
    }
    totals
}

fn show_figures<'a>(
    rt: &impl Print,
    lent: usize,
    given: &'a [u8],
    books: &'a [u8],
) -> io::Result<()> {
    let mut totals = totals_of(given);
    let lent = at_most(lent, TOTALS);
    match add_figures(books, &mut totals[..lent]) {
        Ok(()) => print!(rt; ": 0 0;")?,
        Err(refusal) => print!(rt; ": {refusal};")?,
    }
    for total in &totals[..5] {
        show_item(rt, *total)?;
    }
    println!(rt; "; all {}", checksum_of(&totals))
}
