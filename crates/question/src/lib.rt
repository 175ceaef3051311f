// Admission of a whole question, to a book that is admitted.
#![tactic(auto)]

ghost use Rattle.std.specs.Prelude.{◌≡◌, ◌≤◌, length};
ghost use Rattle.reading.specs.Answer.{reading_of, keeping, nothing};
ghost use Rattle.symbols.specs.Table.{symbols_in};
ghost use Rattle.book.specs.Admission.{question_opened, asked_at, read_question};

use expressions::read_whole;
use limits::Limits;
use reading::{Asker, Fault, Reading, byte, byte_at, length_at};

// Size, version and length of a question: its end, and the place of its sort.
fn open_question(question: &[u8]) -> Reading
    ensures { reading_of result ≡ question_opened question.now }
{
    if Limits::QUESTION < question.len() {
        return Err(Fault::Extent.at(Asker::Question, 0));
    }
    let (version, next) = byte_at(question, Asker::Question, question.len(), 0)?;
    if version == 0 {
        return Err(Fault::Version.at(Asker::Question, 0));
    }
    if 2 < version {
        return Err(Fault::Version.at(Asker::Question, 0));
    }
    length_at(question, Asker::Question, question.len(), next)
}

// The sort byte at q and the expression behind it, in a rest that ends at e.
fn read_asked<'a>(book: &'a [u8], at: &[u16], question: &'a [u8], e: usize, q: usize) -> Reading
    requires { e ≤ length question.now }
    ensures { reading_of result ≡ keeping nothing (asked_at (symbols_in book.now at.now) question.now e q) }
{
    let (_, next) = byte_at(question, Asker::Question, e, q)?;
    let sort = byte(question, q);
    if Limits::LAST_SORT < sort {
        return Err(Fault::Symbol.at(Asker::Question, q));
    }
    let (_, t) = read_whole(book, question, Asker::Question, at, e, &[], sort, next)?;
    if t < e {
        return Err(Fault::Extent.at(Asker::Question, t));
    }
    if t < question.len() {
        return Err(Fault::Extent.at(Asker::Question, t));
    }
    Ok((0, t))
}

// A question to the book whose symbols have the places `at`. Where it is admitted its expression stands from place 4 to its end.
pub fn read_question<'a>(book: &'a [u8], at: &[u16], question: &'a [u8]) -> Reading
    ensures { reading_of result ≡ keeping nothing (read_question (symbols_in book.now at.now) question.now) }
{
    let (e, q) = open_question(question)?;
    read_asked(book, at, question, e, q)
}
