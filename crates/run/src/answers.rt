// Answer records.
ghost use Rattle.std.specs.Prelude.{◌≡◌, ◌+◌, ◌*◌, ◌<◌, ◌≤◌, length};
ghost use Rattle.limits.specs.Decisions.{Decisions as Sides, decided};
ghost use Rattle.reading.specs.Bytes.{two_bytes};
ghost use Rattle.machine.specs.Answers.{decision_numbers, two_bytes_each};
ghost use Rattle.standing.specs.Held.{Decided, written_at};
ghost use Rattle.run.specs.AnswerContracts.{SymbolsAsked, SymbolsTold, RowAsked, RowTold, RecordAsked, RecordTold};

use super::walk::{Graph, wide};
use limits::{Decisions, Limits, Side};
use nodes::{Kind, arrow_at, follow, kind_at, label_at};
use symbols::table::arity_of;

// A number in two bytes at p.
fn put_two(bytes: &mut [u8], p: usize, n: usize)
    requires { (p + 2 ≤ length bytes.old) × (n < 65536) }
    ensures { bytes.new ≡ written_at bytes.old p (two_bytes n) }
{
    bytes[p] = (n / 256 % 256) as u8;
    bytes[p + 1] = (n % 256) as u8;
}

// The symbols from where an arrow leads down, two bytes each, from p on: the place behind. `depth` bounds how deep they stand.
#[cycle(put_row_put_symbols)]
fn put_symbols(graph: &Graph, bytes: &mut [u8], depth: usize, arrow: u16, p: usize) -> usize
    requires { SymbolsAsked graph.now bytes.old depth arrow p }
    ensures { SymbolsTold graph.now bytes.old depth arrow p result bytes.new }
{
    if depth == 0 {
        return p;
    }
    let n = follow(graph.nodes, graph.used, arrow);
    if kind_at(graph.nodes, n) != Kind::Apply as u16 {
        return p;
    }
    let f = wide(label_at(graph.nodes, n));
    put_two(bytes, p, f);
    put_row(
        graph,
        bytes,
        depth - 1,
        n,
        0,
        arity_of(graph.book.bytes, graph.book.table, f),
        p + 2,
    )
}

// The same of the arguments of node n, from the j-th on.
#[cycle(put_row_put_symbols)]
fn put_row(
    graph: &Graph,
    bytes: &mut [u8],
    depth: usize,
    n: u16,
    j: usize,
    arity: usize,
    p: usize,
) -> usize
    requires { RowAsked graph.now bytes.old depth n j arity p }
    ensures { RowTold graph.now bytes.old depth n j p result bytes.new }
{
    if arity <= j {
        return p;
    }
    let arrow = arrow_at(graph.nodes, n, j as u16);
    let q = put_symbols(graph, bytes, depth, arrow, p);
    put_row(graph, bytes, depth, n, j + 1, arity, q)
}

// The numbers of the decided choices, in rising order, two bytes each, from p on.
fn put_decisions(bytes: &mut [u8], ds: Decisions, from: usize)
    requires { (sides : Sides) × Decided ds.words sides × (from + 2 * decided sides ≤ length bytes.old) }
    ensures { (sides : Sides) → Decided ds.words sides → bytes.new ≡ written_at bytes.old from (two_bytes_each (decision_numbers 0 sides)) }
{
    let mut p = from;
    for i in 0..Limits::CHOICES {
        match ds.side((i % 256) as u8) {
            Side::Open => {}
            Side::Left => {
                put_two(bytes, p, 2 * i);
                p += 2;
            }
            Side::Right => {
                put_two(bytes, p, 2 * i + 1);
                p += 2;
            }
        }
    }
}

// The record of a value of so many symbols, `size` bytes in all, from p on.
pub(crate) fn put_record(
    graph: &Graph,
    bytes: &mut [u8],
    root: u16,
    ds: Decisions,
    symbols: usize,
    size: usize,
    p: usize,
)
    requires { RecordAsked graph.now bytes.old root ds symbols size p }
    ensures { RecordTold graph.now bytes.old root ds p bytes.new }
{
    put_two(bytes, p, size - 2);
    put_two(bytes, p + 2, symbols);
    let q = put_symbols(graph, bytes, Limits::DEPTH + 1, root, p + 4);
    put_decisions(bytes, ds, q);
}
