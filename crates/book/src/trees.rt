// The tree part. `ends` gets, at the place of each tree, the place behind it: a run hops from tree to tree by it.
ghost use Rattle.std.specs.Prelude.{List, ◌≡◌, ℕ, ◌<◌, ◌≤◌, length};
ghost use Rattle.limits.specs.Sizes.{most_symbols};
ghost use Rattle.reading.specs.Answer.{reading_of, keeping};
ghost use Rattle.symbols.specs.Symbols.{constructors_of};
ghost use Rattle.expressions.specs.ExpressionAt.{left_of, whole_at};
ghost use Rattle.book.specs.TreeAt.{binds_past, branched_at};
ghost use Rattle.book.specs.Reader.{vars_of, Branched};
ghost use Rattle.book.specs.RowsRead.{trees_read};
ghost use Rattle.book.specs.TreesRead.{symbols_of, CasesFit, TreeRead, CasesRead, ItemRead, TreesRead, PartRead};

use super::path::Path;
use super::table::Table;
use expressions::read_whole;
use limits::Limits;
use reading::{Asker, Fault, Reading, Refusal, byte, byte_at, length_at};

// Whether some constructor of the sort would bind a variable past the last.
fn binds_past(table: Table<'_>, path: Path, sort: u8) -> bool
    ensures { result ≡ binds_past path.bound (constructors_of sort (symbols_of table.entry)) }
{
    // No `for`: the loop hops along the sort's chain.
    let mut f = table.first_of(sort);
    while f < table.at.len() {
        if Limits::VARIABLES < path.bound + table.arguments_of(f).len() {
            return true;
        }
        f = table.next_of(f);
    }
    false
}

// The variable of a branch, whose byte stands at p.
fn read_branched(table: Table<'_>, e: usize, path: Path, p: usize) -> Reading
    ensures { (sort : ℕ) (done : List ℕ) → Branched path done → reading_of result ≡ branched_at table.entry.book.now (symbols_of table.entry) sort e (vars_of path) done p }
{
    let (x, behind) = byte_at(table.book, Asker::Book, e, p)?;
    if path.bound <= x || path.done[x] || binds_past(table, path, path.sorts[x]) {
        return Err(Fault::Code.at(Asker::Book, p));
    }
    Ok((x, behind))
}

// A rule's expression, which starts at p.
fn read_rule(table: Table<'_>, e: usize, path: Path, sort: u8, p: usize) -> Reading
    requires { e ≤ length table.book.now }
    ensures { reading_of result ≡ keeping left_of (whole_at table.entry.book.now 0 (symbols_of table.entry) e (vars_of path) sort p) }
{
    read_whole(
        table.book,
        table.book,
        Asker::Book,
        table.at,
        e,
        &path.sorts[..path.bound],
        sort,
        p,
    )
}

// A tree at p, of an operation of result sort `sort`, in an item that ends at e: the place behind it. `depth` bounds the branches on a
// path.
#[cycle(read_cases_read_tree)]
fn read_tree(
    table: Table<'_>,
    sort: u8,
    e: usize,
    depth: usize,
    path: Path,
    ends: &mut [u16; Limits::BOOK],
    p: usize,
) -> Result<usize, Refusal>
    requires { e ≤ length table.book.now }
    ensures { TreeRead table.entry sort e depth path p result ends.old ends.new }
{
    if depth == 0 {
        return Err(Fault::Code.at(Asker::Book, p));
    }
    let (code, from) = byte_at(table.book, Asker::Book, e, p)?;
    let behind = match code {
        // An exempt, which version 2 has not.
        0 if byte(table.book, 0) != 2 => from,
        // A rule.
        1 => read_rule(table, e, path, sort, from)?.1,
        // A branch.
        2 => {
            let (x, behind) = read_branched(table, e, path, from)?;
            read_cases(
                table,
                sort,
                e,
                depth - 1,
                path.branched(x),
                path.sorts[x],
                ends,
                behind,
            )?
        }
        _ => return Err(Fault::Code.at(Asker::Book, p)),
    };
    ends[p] = behind as u16;
    Ok(behind)
}

// One tree for each constructor of the branch's sort, in symbol order: the place behind them.
#[cycle(read_cases_read_tree)]
fn read_cases(
    table: Table<'_>,
    sort: u8,
    e: usize,
    depth: usize,
    path: Path,
    branch: u8,
    ends: &mut [u16; Limits::BOOK],
    from: usize,
) -> Result<usize, Refusal>
    requires { (e ≤ length table.book.now) × CasesFit table path branch }
    ensures { CasesRead table.entry sort e depth path branch from result ends.old ends.new }
{
    let mut p = from;
    // No `for`: the loop hops along the sort's chain.
    let mut f = table.first_of(branch);
    while f < table.at.len() {
        let inner = path.binding(table.arguments_of(f));
        p = read_tree(table, sort, e, depth, inner, ends, p)?;
        f = table.next_of(f);
    }
    Ok(p)
}

// The tree of operation f with its two-byte length at p: the place behind it.
fn read_item(
    table: Table<'_>,
    e: usize,
    f: usize,
    ends: &mut [u16; Limits::BOOK],
    p: usize,
) -> Result<usize, Refusal>
    requires { (e ≤ length table.book.now) × (f < length table.at.now) }
    ensures { ItemRead table.entry e f p result ends.old ends.new }
{
    let (item, q) = length_at(table.book, Asker::Book, e, p)?;
    let path = Path::empty().binding(table.arguments_of(f));
    let sort = table.sort_of(f);
    let depth = Limits::VARIABLES + 1;
    let behind = read_tree(table, sort, item, depth, path, ends, q)?;
    if behind < item {
        return Err(Fault::Extent.at(Asker::Book, behind));
    }
    Ok(behind)
}

// One tree for each operation, in symbol order, from p on: the place behind them. `info` gets the place of each.
fn read_trees(
    table: Table<'_>,
    e: usize,
    from: usize,
    info: &mut [u16; Limits::SYMBOLS],
    ends: &mut [u16; Limits::BOOK],
) -> Result<usize, Refusal>
    requires { e ≤ length table.book.now }
    ensures { TreesRead table.entry e from result info.old info.new ends.old ends.new }
{
    let mut p = from;
    for f in 0..table.at.len() {
        if table.is_operation(f) {
            let behind = read_item(table, e, f, ends, p)?;
            info[f] = (p + 2) as u16;
            p = behind;
        }
    }
    Ok(p)
}

// The tree part, whose length stands at p, and that nothing is left: the place behind it. `info` gets the place of each operation's tree.
pub(crate) fn read_tree_part(
    table: Table<'_>,
    p: usize,
    info: &mut [u16; Limits::SYMBOLS],
    ends: &mut [u16; Limits::BOOK],
) -> Result<usize, Refusal>
    ensures { PartRead table.entry p result info.old info.new ends.old ends.new }
{
    let (e, q) = length_at(table.book, Asker::Book, table.book.len(), p)?;
    let behind = read_trees(table, e, q, info, ends)?;
    if behind < e || behind < table.book.len() {
        return Err(Fault::Extent.at(Asker::Book, behind));
    }
    Ok(behind)
}

// How many trees of the tree part, whose length stands at p, are read whole before the first fault, or its end.
pub(crate) fn trees_read(table: Table<'_>, p: usize) -> usize
    ensures { (result ≡ trees_read table.entry.book.now (symbols_of table.entry) p) × (result ≤ most_symbols) }
{
    let Ok((e, q)) = length_at(table.book, Asker::Book, table.book.len(), p) else {
        return 0;
    };
    let mut ends = [0u16; Limits::BOOK];
    let mut from = q;
    let mut count: usize = 0;
    for f in 0..table.at.len() {
        if table.is_operation(f) {
            let Ok(behind) = read_item(table, e, f, &mut ends, from) else {
                return count;
            };
            from = behind;
            count += 1;
        }
    }
    count
}
