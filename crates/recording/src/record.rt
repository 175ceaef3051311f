// A whole record.
ghost use Rattle.std.specs.Prelude.{Bool, ◌≡◌, ℕ, ◌<◌, unwrap_or, IfSome};
ghost use Rattle.recording.specs.RecordContracts.{RecordTold, asked_number};

use super::put::{Lent, put_decisions, put_two};
use limits::{Decisions, Limits};

// The value of so many symbols at the root is recorded behind the first `written` bytes, with its question's number if the run took a row: how many
// bytes the record has; None if there is no room for it, and nothing is written.
pub fn record_answer(
    shapes: &[u8; Limits::SYMBOLS],
    nodes: &[u16],
    used: usize,
    bytes: &mut [u8],
    written: usize,
    question: Option<u16>,
    root: u16,
    ds: Decisions,
    symbols: usize,
) -> Option<usize>
    ensures recorded { (row : Bool) (number : ℕ) → question ≡ asked_number row number
        → RecordTold shapes.now nodes.now used bytes.old written row number root ds.words symbols (unwrap_or result 0) bytes.new }
    ensures some { IfSome result (λ size. 0 < size) }
{
    if Limits::ARRIVALS < symbols {
        return None;
    }
    let own: usize = if question.is_some() { 2 } else { 1 };
    let numbers = own + symbols + (ds.decided() as usize);
    let size = 2 + 2 * numbers;
    let room = bytes.len();
    if room < written {
        return None;
    }
    if room - written < size {
        return None;
    }
    let mut p = put_two(bytes, written, (2 * numbers) as u16);
    if let Some(number) = question {
        p = put_two(bytes, p, number);
    }
    p = put_two(bytes, p, symbols as u16);
    let lent = Lent {
        shapes,
        nodes,
        used,
    };
    p = lent.put_symbols(bytes, Limits::DEPTH + 1, root, p);
    put_decisions(bytes, ds, p);
    Some(size)
}
