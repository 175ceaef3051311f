// The book of a listing, written straight to the room lent: its size is known before its first byte is put.
ghost use Rattle.std.specs.Prelude.{◌++◌, ◌∷◌, [], ◌≡◌, ◌+◌, ◌<◌, ◌≤◌, length, drop, set};
ghost use Rattle.limits.specs.Sizes.{most_book_bytes};
ghost use Rattle.reading.specs.Bytes.{two_bytes};
ghost use Rattle.tagged.specs.Write.{book_from};
ghost use Rattle.terms.specs.Places.{bytes_of};
ghost use Rattle.terms.specs.TermRows.{broader_rows, most_headings, most_terms};
ghost use Rattle.listings.specs.Putting.{Fits, Put, HoldRow, HoldRows, outcome_of};
ghost use Rattle.listings.specs.Putting.{term_laid, kind_laid, kinds_laid, front_laid, size_of, next_laid, nest_laid, rule_laid, rules_laid, part_of, book_of};

use terms::{Fault, ROWS, Refusal, TERMS, terms_of};

// Stores a byte where there is room for it; a place past the last changes nothing.
fn store(room: &mut [u8], at: usize, b: u8)
    ensures { room.new ≡ set room.old at b }
{
    if at < room.len() {
        room[at] = b;
    }
}

// Puts a byte: the place behind it.
fn put(room: &mut [u8], at: usize, b: u8) -> usize
    requires { Fits at (b ∷ []) }
    ensures { Put room.old at (b ∷ []) result room.new }
{
    store(room, at, b);
    at + 1
}

fn put_two(room: &mut [u8], at: usize, n: usize) -> usize
    requires { (n < 65536) × Fits at (two_bytes n) }
    ensures { Put room.old at (two_bytes n) result room.new }
{
    let p = put(room, at, (n / 256) as u8);
    put(room, p, (n % 256) as u8)
}

// Symbol f, which takes no arguments.
fn put_term(room: &mut [u8], at: usize, f: usize) -> usize
    requires { (f < 65536) × Fits at (term_laid f) }
    ensures { Put room.old at (term_laid f) result room.new }
{
    let p = put(room, at, 1);
    put_two(room, p, f)
}

// A choice that opens with symbol f.
fn put_choice(room: &mut [u8], at: usize, f: usize) -> usize
    requires { (f < 65536) × Fits at (2 ∷ term_laid f) }
    ensures { Put room.old at (2 ∷ term_laid f) result room.new }
{
    let p = put(room, at, 2);
    put_term(room, p, f)
}

// A symbol of a kind, of sort 0, which takes no arguments.
fn put_symbol(room: &mut [u8], at: usize, kind: u8) -> usize
    requires { Fits at (kind_laid kind) }
    ensures { Put room.old at (kind_laid kind) result room.new }
{
    let mut p = put(room, at, 2);
    p = put(room, p, kind);
    put(room, p, 0)
}

// So many of them.
fn put_symbols(room: &mut [u8], at: usize, many: usize, kind: u8) -> usize
    requires { Fits at (kinds_laid many kind) }
    ensures { Put room.old at (kinds_laid many kind) result room.new }
{
    let mut p = at;
    for _i in 0..many {
        p = put_symbol(room, p, kind);
    }
    p
}

// The version byte and the symbol part.
fn put_front(room: &mut [u8], n: usize) -> usize
    requires { n ≤ most_headings }
    ensures { Put room.old 0 (front_laid n) result room.new }
{
    let mut p = put(room, 0, 1);
    p = put_two(room, p, 9 * n);
    p = put_symbols(room, p, n, 0);
    put_symbols(room, p, n + n, 1)
}

// How many bytes a rule of so many broader terms takes; `above` asks for that of the second operation.
fn size_of(above: bool, terms: usize) -> usize
    requires { terms ≤ most_terms }
    ensures { result ≡ size_of above terms }
{
    if terms == 0 {
        return 2;
    }
    if above { 8 * terms } else { 4 * terms }
}

// The broader terms of n headings, as a listing told them. What is known of the two rows is said once, here.
#[derive(Clone, Copy)]
struct Rows<'a> {
    from: &'a [u16; ROWS],
    to: &'a [u16; TERMS],
    n: usize,
    ghost holding: { HoldRows from.now to.now n },
}

impl<'a> Rows<'a> {
    // A broader term that is not the last; "for each BT, the term and then that term's own second operation".
    fn put_next(self, room: &mut [u8], at: usize, x: usize, above: bool) -> usize
        requires { (x < self.n) × Fits at (next_laid above self.n x) }
        ensures { Put room.old at (next_laid above self.entry.n x) result room.new }
    {
        let own = self.n + self.n + x;
        let p = put_choice(room, at, x);
        if above { put_choice(room, p, own) } else { p }
    }

    // The last.
    fn put_last(self, room: &mut [u8], at: usize, x: usize, above: bool) -> usize
        requires { (x < self.n) × Fits at (nest_laid above self.n (x ∷ [])) }
        ensures { Put room.old at (nest_laid above self.entry.n (x ∷ [])) result room.new }
    {
        if above {
            let q = put_choice(room, at, x);
            put_term(room, q, self.n + self.n + x)
        } else {
            put_term(room, at, x)
        }
    }

    // The broader terms from place a to place b of `to`, at least one, "as choices in listing order, nested to the right".
    fn put_nest(self, room: &mut [u8], at: usize, a: usize, b: usize, above: bool) -> usize
        requires { HoldRow self.to.now self.n a b × (a < b) × Fits at (nest_laid above self.n (bytes_of self.to.now a b)) }
        ensures { Put room.old at (nest_laid above self.entry.n (bytes_of self.entry.to.now a b)) result room.new }
    {
        let last = b - 1;
        let mut p = at;
        for i in a..last {
            p = self.put_next(room, p, usize::from(self.to[i]), above);
        }
        self.put_last(room, p, usize::from(self.to[last]), above)
    }

    // A rule of these broader terms, "or fail where there are none", with its length in front.
    fn put_rule(self, room: &mut [u8], at: usize, a: usize, b: usize, above: bool) -> usize
        requires { HoldRow self.to.now self.n a b × Fits at (rule_laid above self.n (bytes_of self.to.now a b)) }
        ensures { Put room.old at (rule_laid above self.entry.n (bytes_of self.entry.to.now a b)) result room.new }
    {
        let p = put_two(room, at, size_of(above, b - a));
        let q = put(room, p, 1);
        if a == b {
            put(room, q, 3)
        } else {
            self.put_nest(room, q, a, b, above)
        }
    }

    // The rules of all headings' first operations, or second ones.
    fn put_rules(self, room: &mut [u8], at: usize, above: bool) -> usize
        requires { Fits at (rules_laid above self.n (broader_rows self.from.now self.to.now self.n 0)) }
        ensures { Put room.old at (rules_laid above self.entry.n (broader_rows self.entry.from.now self.entry.to.now self.entry.n 0)) result room.new }
    {
        let mut p = at;
        for x in 0..self.n {
            let a = usize::from(self.from[x]);
            let b = usize::from(self.from[x + 1]);
            p = self.put_rule(room, p, a, b, above);
        }
        p
    }

    // The tree part, of so many bytes behind its length.
    fn put_trees(self, room: &mut [u8], at: usize, size: usize) -> usize
        requires { (size ≡ length (part_of self.from.now self.to.now self.n)) × (at + 2 + size ≤ most_book_bytes) }
        ensures { Put room.old at (two_bytes size ++ part_of self.entry.from.now self.entry.to.now self.entry.n) result room.new }
    {
        let mut p = put_two(room, at, size);
        p = self.put_rules(room, p, false);
        self.put_rules(room, p, true)
    }

    // The book of the broader terms that the two rows hold, of so many bytes.
    fn put_book(self, room: &mut [u8], size: usize)
        requires { (size ≡ length (book_of self.from.now self.to.now self.n)) × (size ≤ most_book_bytes) × (size ≤ length room.old) }
        ensures { room.new ≡ book_of self.entry.from.now self.entry.to.now self.entry.n ++ drop size room.old }
    {
        let p = put_front(room, self.n);
        self.put_trees(room, p, size - 5 - 9 * self.n);
    }
}

// "Books from the tagged listing": writes the book of a listing into the room lent, from its first byte on: how many bytes it has.
// A refusal writes nothing.
pub fn write_listing(s: &[u8], room: &mut [u8]) -> Result<usize, Refusal>
    ensures { outcome_of result room.new ≡ book_from s.now room.old }
{
    let t = terms_of(s)?;
    let size = t.size;
    if room.len() < size {
        return Err(Fault::Size.at(0));
    }
    let rows = Rows {
        from: &t.from,
        to: &t.to,
        n: t.headings,
    };
    rows.put_book(room, size);
    Ok(size)
}
