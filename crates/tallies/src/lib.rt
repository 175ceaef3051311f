// An answer's symbols, added to the totals and taken off again. `symbols` holds the answer from its first symbol on; a symbol that is not there reads as 0.
#![tactic(auto)]

ghost use Rattle.std.specs.Prelude.{[], ◌≡◌};
ghost use Rattle.book.specs.TreeAt.{is_in};
ghost use Rattle.tallies.specs.Tallied.{tallied, symbols_at};
ghost use Rattle.tallies.specs.InCode.{number_of, AddedAs, Grown, Lessened, TakenBack, answer_over};

use reading::number;
use std::fmt;

// What is refused of an answer book, by its number.
#[derive(Clone, Copy, Debug, PartialEq, Eq)]
pub enum Fault {
    // A book cut short or not in the layout.
    Layout = 60,
    // A symbol past the row.
    PastRow = 61,
    // A total past 32 bits.
    PastBits = 62,
}

// A refusal: what is at fault, and where.
#[derive(Clone, Copy, Debug, PartialEq, Eq)]
pub struct Refusal {
    pub fault: Fault,
    pub place: usize,
}

impl Fault {
    pub fn number(self) -> u8
        ensures { result ≡ number_of self }
    {
        self as u8
    }

    // The refusal at a place.
    pub fn at(self, place: usize) -> Refusal
        ensures { result ≡ record { fault = self; place = place } }
    {
        Refusal { fault: self, place }
    }
}

impl fmt::Display for Refusal {
    fn fmt<W: fmt::Write>(&self, f: &mut fmt::Formatter<W>) -> fmt::Result {
        write!(f, "{} {}", self.fault.number(), self.place)
    }
}

// Whether symbol f is one of the first k. The last is looked at first: in an answer of n symbols, d of them different, all these searches together take
// at most 2 * d * n steps, since a symbol is found where it stood last.
fn stands(symbols: &[u8], f: usize, k: u16) -> bool
    ensures { result ≡ is_in f (symbols_at symbols.now k 0) }
{
    for i in (0..k).rev() {
        if number(symbols, 2 * usize::from(i)) == f {
            return true;
        }
    }
    false
}

// One more of a total, where there is one that can grow.
fn one_more(f: usize, totals: &mut [u32]) -> Result<(), Fault>
    ensures { Grown f totals.old result totals.new }
{
    if totals.len() <= f {
        return Err(Fault::PastRow);
    }
    if totals[f] == u32::MAX {
        return Err(Fault::PastBits);
    }
    totals[f] += 1;
    Ok(())
}

// One less of a total, where there is one.
fn one_less(f: usize, totals: &mut [u32])
    ensures { Lessened f totals.old totals.new }
{
    // Tried: `get_mut`, but where it finds no total it tells nothing of the others.
    if f < totals.len() {
        totals[f] = totals[f].saturating_sub(1);
    }
}

// Takes an answer's symbols, the first `count`, off the totals again.
pub fn take_back(symbols: &[u8], count: u16, totals: &mut [u32])
    ensures { TakenBack totals.old (answer_over symbols.now count 0) totals.new }
{
    for i in 0..count {
        let f = number(symbols, 2 * usize::from(i));
        if !stands(symbols, f, i) {
            one_less(f, totals);
        }
    }
}

// Adds an answer's symbols, `count` of them, to the totals: the place behind them. A symbol counts once in an answer. A refusal leaves the totals as they were.
pub fn tally(symbols: &[u8], count: u16, totals: &mut [u32]) -> Result<usize, Refusal>
    ensures { AddedAs (tallied symbols.now totals.old [] count 0) result totals.old totals.new }
{
    for i in 0..count {
        let p = 2 * usize::from(i);
        let f = number(symbols, p);
        if !stands(symbols, f, i) {
            if let Err(fault) = one_more(f, totals) {
                take_back(symbols, i, totals);
                return Err(fault.at(p));
            }
        }
    }
    Ok(2 * usize::from(count))
}
