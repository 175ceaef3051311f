// Reads a table of runs from standard input and makes each over memory that is longer than what is lent of it. For each it prints the
// label, the seven numbers of the result, and a checksum of all the node numbers, list places and answer bytes, lent or not; then a line for
// each answer. tools/edge_cases.py makes the table and says what document 01 has for each row.
#![tactic(auto)]

ghost use Rattle.std.specs.Prelude.{IfOk};
ghost use Rattle.tables.specs.Rows.{TakesSome};

use limits::{Decisions, Entry, Limits};
use lines::{show_answers, show_result};
use run::{Owned, run_owned};
use std::io;
use tables::{Fields, at_most, checksum_of, for_each_row, mixed, read_full};

// How long each memory is; the list has Owned::HELD places.
const NUMBERS: usize = 32010;

const BYTES: usize = 16400;

// Each program over a table has these three lines. One function for them would be called with the size and the closure all the same, and hide what is read.
fn main(rt: HostRuntime) -> io::Result<()> {
    let mut input = [0u8; 65536];
    let n = read_full(&mut rt.stdin(), &mut input)?;
    for_each_row(&input[..n], |row| show_row(&rt, row))
}

// One row: its label, its sizes and fuel (ten bytes), its book and its question.
fn show_row(rt: &impl Print, row: &mut Fields<'_>) -> io::Result<()>
    ensures { IfOk result (λ done. TakesSome row.old row.new) }
{
    rt.write_all(row.field())?;
    let given = row.bytes(10);
    let book = row.field();
    show_run(rt, Fields { left: given }, book, row.field())
}

// The run of a row over the first so many numbers, places and bytes of memory that holds marks. The ten bytes say how many, and the fuel.
fn show_run<'a>(
    rt: &impl Print,
    mut given: Fields<'_>,
    book: &'a [u8],
    question: &'a [u8],
) -> io::Result<()> {
    let numbers = at_most(given.number(), NUMBERS);
    let places = given.number();
    let room = at_most(given.number(), BYTES);
    let fuel = given.long_number();
    rt.write_all(b":")?;
    let mut nodes = [48879u16; NUMBERS];
    let mut bytes = [170u8; BYTES];
    let list = [Entry::of(7, marked()); Owned::HELD];
    let r = run_owned(
        book,
        question,
        &mut nodes[0..numbers],
        list,
        places,
        &mut bytes[0..room],
        fuel,
    );
    let outcome = r.outcome;
    show_result(rt, outcome)?;
    let after = r.list;
    show_left(rt, &nodes, after, &bytes, outcome.answers)
}

fn sum_of_list(list: &[Entry]) -> u32 {
    list.iter().fold(0, |sum, e| {
        with_decisions(mixed(sum, u32::from(e.root)), e.decisions())
    })
}

// What the places hold before a run: neither all open nor all decided, so that clearing and keeping are both seen.
fn marked() -> Decisions {
    Limits::all_open().decide(3, false).decide(200, true)
}

// A checksum with the 256 decisions of a set in it.
fn with_decisions(sum: u32, d: Decisions) -> u32 {
    (0..=255).fold(sum, |sum, choice| mixed(sum, d.side(choice) as u32))
}

// What a run left: the checksums behind the numbers, then a line for each answer.
fn show_left<'a>(
    rt: &impl Print,
    nodes: &'a [u16; NUMBERS],
    list: [Entry; Owned::HELD],
    bytes: &'a [u8; BYTES],
    answers: usize,
) -> io::Result<()> {
    println!(rt;
        "; nodes {} list {} bytes {}",
        checksum_of(nodes),
        sum_of_list(&list),
        checksum_of(bytes)
    )?;
    show_answers(rt, bytes, answers)
}
