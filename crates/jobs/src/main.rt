// Reads books with questions from standard input and runs each question, over memory that is cleared first: the 500 jobs by which the speed is measured
// (request L13). For each it prints the seven numbers of the result. tools/job_cases.py makes the jobs, tools/speed measures.
#![tactic(auto)]

ghost use Rattle.std.specs.Prelude.{IfOk};
ghost use Rattle.tables.specs.Rows.{TakesSome};

use limits::{Entry, Limits};
use lines::show_result;
use run::{Owned, run_owned};
use std::io;
use tables::{Fields, for_each_row, read_full};

// The room for answers.
const ANSWER_BYTES: usize = 16384;

// Each program over a table has these three lines. One function for them would be called with the size and the closure all the same, and hide what is read.
fn main(rt: HostRuntime) -> io::Result<()> {
    let mut input = [0u8; 131072];
    let n = read_full(&mut rt.stdin(), &mut input)?;
    for_each_row(&input[..n], |row| run_book(&rt, row))
}

// A book, how many questions it is asked, and these with their fuels.
fn run_book(rt: &impl Print, row: &mut Fields<'_>) -> io::Result<()>
    ensures { IfOk result (λ done. TakesSome row.old row.new) }
{
    let book = row.field();
    for _ in 0..row.number() {
        let question = row.field();
        run_cleared(rt, book, question, row.long_number())?;
    }
    Ok(())
}

// One job: a question and its fuel.
fn run_cleared<'a>(
    rt: &impl Print,
    book: &'a [u8],
    question: &'a [u8],
    fuel: u32,
) -> io::Result<()> {
    let mut nodes = [0u16; Limits::NODES * Limits::NODE];
    let mut bytes = [0u8; ANSWER_BYTES];
    let list = [Entry::vacant(); Owned::HELD];
    let r = run_owned(
        book,
        question,
        &mut nodes,
        list,
        Limits::ENTRIES,
        &mut bytes,
        fuel,
    );
    let outcome = r.outcome;
    rt.write_all(b"R")?;
    show_result(rt, outcome)?;
    rt.write_all(b"\n")
}
