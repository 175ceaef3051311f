// Bytes, numbers and lengths at a place of a book or a question. A byte that is not there reads as 0, so no place is out of bounds.
#![tactic(auto)]

ghost use Rattle.std.specs.Prelude.{◌≡◌, ◌-◌, ◌<◌, ◌≤◌, get_or};
ghost use Rattle.reading.specs.Bytes.{big_endian, byte_at, length_at};
ghost use Rattle.reading.specs.Answer.{reading_of, base_of, number_of, refusal_number, part_of};

use std::fmt;

// What is refused in a book or a question, numbered as document 01 has them.
#[derive(Clone, Copy, Debug, PartialEq, Eq)]
pub enum Fault {
    // A size, a byte or a length past what encloses it, or bytes left over.
    Extent = 1,
    // The version byte.
    Version = 2,
    // A symbol, its kind, or a sort byte out of range.
    Symbol = 3,
    // A code, a symbol or a variable that is not there, a branch, the 65th node.
    Code = 4,
    // An expression's sort.
    Sort = 5,
}

// Who asks: a rule of the book, or the question. It says in which of the two the bytes stand, and which refusals are given.
#[derive(Clone, Copy, Debug, PartialEq, Eq)]
pub enum Asker {
    Book,
    Question,
}

// A refusal: whose bytes are at fault, what is, and where.
#[derive(Clone, Copy, Debug, PartialEq, Eq)]
pub struct Refusal {
    pub who: Asker,
    pub fault: Fault,
    pub place: usize,
}

// As the programs print it: its number and its place.
impl fmt::Display for Refusal {
    fn fmt<W: fmt::Write>(&self, f: &mut fmt::Formatter<W>) -> fmt::Result {
        write!(f, "{} {}", self.number(), self.place)
    }
}

// What reading finds: what was read and the place behind it, or the first fault.
pub type Reading = Result<(usize, usize), Refusal>;

// Refusals of the question are those of the book and ten.
pub fn base_of(who: Asker) -> u8
    ensures { (result ≡ base_of who) × (result ≤ 10) }
{
    match who {
        Asker::Book => 0,
        Asker::Question => 10,
    }
}

impl Fault {
    // Its number in the book.
    pub fn number(self) -> u8
        ensures { (result ≡ number_of self) × (result ≤ 5) }
    {
        self as u8
    }

    // The refusal of who asks, at a place.
    pub fn at(self, who: Asker, place: usize) -> Refusal
        ensures { result ≡ record { who = who; fault = self; place = place } }
    {
        Refusal {
            who,
            fault: self,
            place,
        }
    }
}

impl Refusal {
    // Its number in document 01.
    pub fn number(self) -> u8
        ensures { (result ≡ refusal_number self) × (result ≤ 15) }
    {
        base_of(self.who) + self.fault.number()
    }
}

// How many places there are from one to another, none if the other is not behind it.
pub fn between(from: usize, to: usize) -> usize
    ensures { result ≡ to - from }
{
    to.saturating_sub(from)
}

// The byte at a place, 0 past the end.
pub fn byte(s: &[u8], p: usize) -> u8
    ensures { result ≡ get_or s.now p 0 }
{
    s.get(p).copied().unwrap_or(0)
}

// The same as a wide number.
pub fn wide_byte(s: &[u8], p: usize) -> usize
    ensures { (result ≡ get_or s.now p 0) × (result < 256) }
{
    usize::from(byte(s, p))
}

// The number whose two bytes stand at a place.
pub fn number(s: &[u8], p: usize) -> usize
    ensures { (result ≡ big_endian s.now p) × (result < 65536) }
{
    if p < s.len() {
        wide_byte(s, p) * 256 + wide_byte(s, p + 1)
    } else {
        0
    }
}

// The bytes from one place to another, as far as they are there.
pub fn part_of(s: &[u8], from: usize, to: usize) -> &[u8]
    ensures { result.now ≡ part_of s.now from to }
{
    let n = s.len();
    if n <= from {
        &s[n..]
    } else if to <= from {
        &s[n..]
    } else if n < to {
        &s[from..]
    } else {
        &s[from..to]
    }
}

// A byte of a part or item that ends at e.
pub fn byte_at(s: &[u8], who: Asker, e: usize, p: usize) -> Reading
    ensures { reading_of result ≡ byte_at s.now (base_of who) e p }
{
    if e <= p {
        return Err(Fault::Extent.at(who, e));
    }
    Ok((wide_byte(s, p), p + 1))
}

// A two-byte length of what stands in a part or item that ends at e: the end of what it opens.
pub fn length_at(s: &[u8], who: Asker, e: usize, p: usize) -> Reading
    ensures { reading_of result ≡ length_at s.now (base_of who) e p }
{
    let room = between(p, e);
    if room < 2 {
        return Err(Fault::Extent.at(who, e));
    }
    let n = number(s, p);
    if room - 2 < n {
        return Err(Fault::Extent.at(who, p));
    }
    Ok((p + 2 + n, p + 2))
}
