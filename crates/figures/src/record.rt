// One record of an answer book.
ghost use Rattle.std.specs.Prelude.{◌≡◌, ◌+◌, ◌*◌, ◌<◌, ◌≤◌, length};
ghost use Rattle.reading.specs.Answer.{keeping, nothing};
ghost use Rattle.tallies.specs.InCode.{reading_of};
ghost use Rattle.figures.specs.AnswerBook.{record_at};
ghost use Rattle.figures.specs.AnswerBook.{rising as risingIn};

use limits::Limits;
use reading::number;
use tallies::{Fault, Refusal};

// Whether the k decision numbers from p on are of choices that there can be, in rising order.
pub(crate) fn rising(books: &[u8], k: usize, from: usize) -> bool
    requires { from + 2 * k ≤ length books.now }
    ensures { result ≡ risingIn books.now k 0 from }
{
    let mut least: usize = 0;
    for i in 0..k {
        let choice = number(books, from + 2 * i) / 2;
        if choice < least {
            return false;
        }
        if Limits::CHOICES <= choice {
            return false;
        }
        least = choice + 1;
    }
    true
}

// A record at p of a book that ends at e, up to its symbols: the place behind the record. The symbols stand behind the symbol count.
pub(crate) fn read_record(
    books: &[u8],
    version: usize,
    e: usize,
    p: usize,
) -> Result<usize, Refusal>
    requires { (p < e) × (e ≤ length books.now) × (0 < version) × (version ≤ 2) }
    ensures { reading_of result ≡ keeping nothing (record_at books.now version e p) }
{
    if e < p + 2 {
        return Err(Fault::Layout.at(p));
    }
    let end = p + 2 + number(books, p);
    let at = p + 2 * version;
    if e < end {
        return Err(Fault::Layout.at(p));
    }
    if end < at + 2 {
        return Err(Fault::Layout.at(p));
    }
    let count = number(books, at);
    if count == 0 {
        return Err(Fault::Layout.at(p));
    }
    let decisions = at + 2 + 2 * count;
    if end < decisions {
        return Err(Fault::Layout.at(p));
    }
    let left = end - decisions;
    if left % 2 == 1 {
        return Err(Fault::Layout.at(p));
    }
    Ok(end)
}
