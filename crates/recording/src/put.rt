// What a record is made of, two bytes each, from a place on. A place where there is no room is left out.
ghost use Rattle.std.specs.Prelude.{◌≡◌, ◌+◌, ◌<◌, ◌≤◌, length};
ghost use Rattle.reading.specs.Bytes.{two_bytes};
ghost use Rattle.standing.specs.Held.{written_at};
ghost use Rattle.recording.specs.RecordContracts.{SymbolsTold, RowTold, WordTold, DecisionsTold};

use limits::{Decisions, Limits};
use nodes::{Kind, arrow_at, follow as end_of, kind_at, label_at};
use standing::arity_in;

// A number in two bytes at p: the place behind it.
pub(crate) fn put_two(bytes: &mut [u8], p: usize, n: u16) -> usize
    ensures { p + 2 ≤ length bytes.old → (result ≡ p + 2) × (bytes.new ≡ written_at bytes.old p (two_bytes n)) }
{
    let room = bytes.len();
    if room <= p {
        return p;
    }
    if room - p < 2 {
        return p;
    }
    bytes[p] = (n / 256) as u8;
    bytes[p + 1] = (n % 256) as u8;
    p + 2
}

// The nodes that a value is read from, and the shapes of their symbols.
#[derive(Clone, Copy)]
pub struct Lent<'a> {
    pub shapes: &'a [u8; Limits::SYMBOLS],
    pub nodes: &'a [u16],
    pub used: usize,
}

impl<'a> Lent<'a> {
    // The symbols from where an arrow leads down, two bytes each, from p on: the place behind. `depth` bounds how deep they stand. Lent by `&`: by
    // value it would be copied at each level, and the last call of a row would need its own place on the stack.
    #[cycle(put_row_put_symbols)]
    pub(crate) fn put_symbols(&self, bytes: &mut [u8], depth: usize, arrow: u16, p: usize) -> usize
        ensures { SymbolsTold self.now.shapes.now self.now.nodes.now self.now.used bytes.old depth arrow p result bytes.new }
    {
        if depth == 0 {
            return p;
        }
        let n = end_of(self.nodes, self.used, arrow);
        if kind_at(self.nodes, n) != Kind::Apply as u16 {
            return p;
        }
        let f = label_at(self.nodes, n);
        let q = put_two(bytes, p, f);
        self.put_row(bytes, depth - 1, n, 0, arity_in(self.shapes, f), q)
    }

    // The same of the arguments of node n, from the j-th on.
    #[cycle(put_row_put_symbols)]
    fn put_row(
        &self,
        bytes: &mut [u8],
        depth: usize,
        n: u16,
        j: usize,
        arity: usize,
        p: usize,
    ) -> usize
        requires { arity < 128 }
        ensures { RowTold self.now.shapes.now self.now.nodes.now self.now.used bytes.old depth n j arity p result bytes.new }
    {
        if arity <= j {
            return p;
        }
        let arrow = arrow_at(self.nodes, n, j as u16);
        let q = self.put_symbols(bytes, depth, arrow, p);
        self.put_row(bytes, depth, n, j + 1, arity, q)
    }
}

// The numbers of the bits of a word that are set, of which the lowest is bit `first` of the set, two bytes each, from p on: the place behind.
fn put_word(bytes: &mut [u8], word: u64, first: u16, from: usize) -> usize
    requires { first < 512 }
    ensures { WordTold bytes.old word first from result bytes.new }
{
    let mut p = from;
    let mut w = word;
    for i in first..first + 64 {
        if w == 0 {
            return p;
        }
        if w % 2 == 1 {
            p = put_two(bytes, p, i);
        }
        w = w / 2;
    }
    p
}

// The numbers of the decided choices, in rising order, two bytes each, from p on.
pub(crate) fn put_decisions(bytes: &mut [u8], ds: Decisions, from: usize)
    ensures { DecisionsTold bytes.old ds.words from bytes.new }
{
    let mut p = from;
    for (i, w) in ds.words.iter().enumerate() {
        p = put_word(bytes, *w, (64 * i) as u16, p);
    }
}
