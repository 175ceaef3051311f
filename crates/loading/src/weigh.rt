// What questions come to before anything is made.
ghost use Rattle.std.specs.Prelude.{◌≡◌, Err};
ghost use Rattle.loading.specs.Questions.{WeighTold, WeighRowTold, SumTold, refused, weight_of};

use limits::Limits;
use making::size_expr;
use question::read_question;
use reading::{Asker, Fault, Refusal, between, part_of};

// How many nodes and choices questions have in all.
#[derive(Clone, Copy, Debug, PartialEq, Eq)]
pub struct Weighed {
    pub nodes: usize,
    pub choices: usize,
}

// A refusal of a question, with the question's number in the row.
#[derive(Clone, Copy, Debug, PartialEq, Eq)]
pub struct Refused {
    pub refusal: Refusal,
    pub question: usize,
}

// One question, which is number `number` of its row.
pub fn weigh_question<'a>(
    book: &'a [u8],
    at: &[u16],
    shapes: &[u8; Limits::SYMBOLS],
    question: &'a [u8],
    number: usize,
) -> Result<Weighed, Refused>
    ensures { WeighTold book.now at.now shapes.now question.now number (weight_of result) }
{
    match read_question(book, at, question) {
        Err(refusal) => Err(Refused {
            refusal,
            question: number,
        }),
        Ok(_) => {
            let size = size_expr(shapes, question, 4);
            Ok(Weighed {
                nodes: size.nodes,
                choices: size.choices,
            })
        }
    }
}

// A sum, if it is one of small numbers: the nodes and choices of a row that was read are few.
fn sum(a: usize, b: usize) -> usize
    ensures { SumTold a b result }
{
    if Limits::BOOK < a {
        return 0;
    }
    if Limits::BOOK < b {
        return 0;
    }
    a + b
}

// "bytes too few or left over: 11 at 0"
fn refused_bytes(question: usize) -> Refused
    ensures { weight_of (Err result) ≡ refused 11 0 question }
{
    Refused {
        refusal: Fault::Extent.at(Asker::Question, 0),
        question,
    }
}

// A row of them: "the first bad question's number (bytes left over: the last's)". The next question begins at `from`.
pub fn weigh_row<'a>(
    book: &'a [u8],
    at: &[u16],
    shapes: &[u8; Limits::SYMBOLS],
    lengths: &[u16],
    questions: &'a [u8],
) -> Result<Weighed, Refused>
    ensures { WeighRowTold book.now at.now shapes.now lengths.now questions.now (weight_of result) }
{
    let mut nodes: usize = 0;
    let mut choices: usize = 0;
    let mut from: usize = 0;
    for (i, length) in lengths.iter().enumerate() {
        let size = usize::from(*length);
        if questions.len() - from < size {
            return Err(refused_bytes(i));
        }
        let one = weigh_question(book, at, shapes, part_of(questions, from, from + size), i)?;
        nodes = sum(nodes, one.nodes);
        choices = sum(choices, one.choices);
        from += size;
    }
    if from < questions.len() {
        return Err(refused_bytes(between(1, lengths.len())));
    }
    Ok(Weighed { nodes, choices })
}
