// The text of what a run gives, as the programs print it: a line for each answer, and the seven numbers of a result; and what `expand` does with its input.
#![tactic(auto)]

ghost use Rattle.std.specs.Prelude.{◌+◌, ◌*◌, ◌≤◌};

use limits::{Entry, Limits};
use reading::{number, part_of};
use run::{Outcome, Owned, run_owned};
use std::io;
use tables::{Fields, show_item};

// The room for answers that `expand` has.
const ANSWER_BYTES: usize = 16384;

// What program `expand` does with its input: a two-byte book length, the book, a two-byte question length, the question, a four-byte fuel. Input that is cut short
// or has bytes left over prints only `J`. One test sees both: behind a field that is cut short nothing is left.
pub fn expand(rt: &impl Print, input: &[u8]) -> io::Result<()> {
    let mut fields = Fields { left: input };
    let book = fields.field();
    let question = fields.field();
    if fields.left.len() != 4 {
        return println!(rt; "J");
    }
    let fuel = fields.long_number();
    let mut nodes = [0u16; Limits::NODES * Limits::NODE];
    let mut bytes = [0u8; ANSWER_BYTES];
    let list = [Entry::vacant(); Owned::HELD];
    let r = run_owned(
        book,
        question,
        &mut nodes,
        list,
        Limits::ENTRIES,
        &mut bytes,
        fuel,
    );
    let outcome = r.outcome;
    show_answers(rt, &bytes, outcome.answers)?;
    rt.write_all(b"R")?;
    show_result(rt, outcome)?;
    rt.write_all(b"\n")
}

// The seven numbers of a result.
pub fn show_result(rt: &impl Print, r: Outcome) -> io::Result<()> {
    print!(rt;
        " {} {} {} {} {} {} {}",
        r.number, r.place, r.turns, r.answers, r.nodes, r.choices, r.waiting
    )
}

// The records stand one behind the other, the first behind the version byte. Each that is counted begins inside the bytes.
pub fn show_answers(rt: &impl Print, bytes: &[u8], count: usize) -> io::Result<()> {
    let mut left = part_of(bytes, 1, bytes.len());
    for _ in 0..count {
        if left.is_empty() {
            break;
        }
        let size = show_answer(rt, left)?;
        left = part_of(left, size, left.len());
    }
    Ok(())
}

// The line of the record that the bytes begin with. The answer is its length.
fn show_answer(rt: &impl Print, record: &[u8]) -> io::Result<usize> {
    let symbols = number(record, 2);
    let decisions = 4 + 2 * symbols;
    let end = 2 + number(record, 0);
    rt.write_all(b"A")?;
    show_numbers(rt, record, 4, symbols)?;
    rt.write_all(b" |")?;
    show_numbers(
        rt,
        record,
        decisions,
        end.saturating_sub(decisions).div_ceil(2),
    )?;
    rt.write_all(b"\n")?;
    Ok(end)
}

// So many two-byte numbers from a place on.
fn show_numbers(rt: &impl Print, bytes: &[u8], from: usize, count: usize) -> io::Result<()>
    requires { from + 2 * count ≤ 1000000 }
{
    for i in 0..count {
        show_item(rt, number(bytes, from + 2 * i))?;
    }
    Ok(())
}
