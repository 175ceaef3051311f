// "Name the circle before the night": a level for every heading or, in the same row, the shortest circle, the first in number order.
ghost use Rattle.std.specs.Prelude.{◌≡◌, max, ◌≤◌, ◌<◌, length, get_or};
ghost use Rattle.tagged.specs.Hops.{broader_of};
ghost use Rattle.tagged.specs.Levels.{longest};
ghost use Rattle.tagged.specs.Circle.{some_marked, mark_at, below};
ghost use Rattle.tagged.specs.Saved.{over, saved_as};
ghost use Rattle.terms.specs.TermRows.{most_terms};
ghost use Rattle.circles.specs.Saving.{held, Holding, outcome_of, SameAs, PutLevels, Low, RoundOf, LevelledAs, AnsweredAs};
ghost use Rattle.circles.specs.Saving.{SameMarks, HopFrom, NoMark, LowestAs, lower_of, BackIn, ShortestAs, way_from};

use terms::{Fault, HEADINGS, ROWS, Refusal, TERMS, terms_of};

// What is told of a listing: how many headings it has, and how many of them its circle has, 0 where the row holds levels.
#[derive(Clone, Copy, Debug, PartialEq, Eq)]
pub struct Saved {
    pub headings: usize,
    // A count, 0 for none: an Option would allow `Some(0)`, which no listing has.
    pub circle: usize,
}

// Whether two rows are the same for n headings.
fn same_row(a: &[u16; HEADINGS], b: &[u16; HEADINGS], n: usize) -> bool
    requires { n ≤ 341 }
    ensures { SameAs a.now b.now n result }
{
    a[..n] == b[..n]
}

// Whether no heading is marked.
fn no_mark(marks: &[bool; HEADINGS], n: usize) -> bool
    requires { n ≤ 341 }
    ensures { NoMark marks.now n result }
{
    marks[..n].iter().all(|mark| !*mark)
}

// A mark at heading x alone.
fn mark_at(n: usize, x: usize) -> [bool; HEADINGS]
    requires { (x < n) × (n ≤ 341) }
    ensures { SameMarks result (mark_at n x) }
{
    let mut marks = [false; HEADINGS];
    marks[x] = true;
    marks
}

// The hops of a shortest circle, and its first heading.
#[derive(Clone, Copy, Debug, PartialEq, Eq)]
struct Shortest {
    hops: usize,
    first: usize,
}

fn lower_of(counts: bool, b: usize, low: usize) -> usize
    ensures { result ≡ lower_of counts b low }
{
    if counts {
        if b < low {
            return b;
        }
    }
    low
}

// The levels of n headings, over the front of the row.
fn put_levels(own: &[u16; HEADINGS], n: usize, row: &mut [u16])
    requires { (n ≤ 341) × (n ≤ length row.old) }
    ensures { PutLevels n own.now row.old row.new }
{
    row[..n].copy_from_slice(&own[..n]);
}

// The broader terms of n headings, as a listing told them. What is known of the two rows is said once, here.
#[derive(Clone, Copy)]
struct Rows<'a> {
    from: &'a [u16; ROWS],
    to: &'a [u16; TERMS],
    n: usize,
    ghost holding: { Holding from.now to.now n },
}

impl<'a> Rows<'a> {
    // The place in `to` at which the broader terms of x begin.
    fn place(self, x: usize) -> usize
        requires { x ≤ self.n }
        ensures { result ≡ get_or self.entry.from.now x 0 }
    {
        usize::from(self.from[x])
    }

    // The broader term at a place.
    fn term(self, i: usize) -> usize
        requires { i < most_terms }
        ensures { result ≡ get_or self.entry.to.now i 0 }
    {
        usize::from(self.to[i])
    }

    // One hop from heading x, and the longest chain behind it.
    fn longest_of(self, row: &[u16; HEADINGS], x: usize) -> u16
        requires { (x < self.n) × (Low row.now) }
        ensures { result ≡ longest row.now (broader_of (held self.entry.from.now self.entry.to.now self.entry.n) x) }
    {
        let start = self.place(x);
        let until = self.place(x + 1);
        let mut best: u16 = 0;
        for i in start..until {
            let b = self.term(i);
            best = best.max(row[b] + 1);
        }
        best
    }

    // The next row of chains: of one hop more.
    fn one_round(self, row: &[u16; HEADINGS]) -> [u16; HEADINGS]
        requires { Low row.now }
        ensures { RoundOf (held self.entry.from.now self.entry.to.now self.entry.n) row.now result }
    {
        let mut next = [0u16; HEADINGS];
        for x in 0..self.n {
            next[x] = self.longest_of(row, x);
        }
        next
    }

    // Round by round: the longest chains, where one changes nothing. Where n + 1 rounds each change something there is a circle, and no row.
    fn levels_of(self) -> Option<[u16; HEADINGS]>
        ensures { LevelledAs (held self.entry.from.now self.entry.to.now self.entry.n) result }
    {
        let mut row = [0u16; HEADINGS];
        for _k in 0..self.n + 1 {
            let next = self.one_round(&row);
            if same_row(&next, &row, self.n) {
                return Some(row);
            }
            row = next;
        }
        None
    }

    // Some broader term of x has its mark set.
    fn some_marked(self, marks: &[bool; HEADINGS], x: usize) -> bool
        requires { x < self.n }
        ensures { result ≡ some_marked marks.now (broader_of (held self.entry.from.now self.entry.to.now self.entry.n) x) }
    {
        let start = self.place(x);
        let until = self.place(x + 1);
        for i in start..until {
            let b = self.term(i);
            if marks[b] {
                return true;
            }
        }
        false
    }

    // The headings, from `low` on, from which one hop leads to a marked one.
    fn one_hop(self, marks: &[bool; HEADINGS], low: usize) -> [bool; HEADINGS]
        ensures { HopFrom (held self.entry.from.now self.entry.to.now self.entry.n) low marks.now result }
    {
        let mut next = [false; HEADINGS];
        for x in low..self.n {
            next[x] = self.some_marked(marks, x);
        }
        next
    }

    // The headings from which x is reached in exactly k hops.
    fn below_in(self, x: usize, k: usize) -> [bool; HEADINGS]
        requires { x < self.n }
        ensures { SameMarks result (below (held self.entry.from.now self.entry.to.now self.entry.n) x k) }
    {
        let mut marks = mark_at(self.n, x);
        for _i in 0..k {
            marks = self.one_hop(&marks, 0);
        }
        marks
    }

    // In how many hops, fewer than `best`, x is first reached from itself by headings no lower; `best` if in none.
    fn back_in(self, x: usize, best: usize) -> usize
        requires { (x < self.n) × (1 ≤ best) × (best ≤ 342) }
        ensures { BackIn (held self.entry.from.now self.entry.to.now self.entry.n) x best result }
    {
        let mut marks = mark_at(self.n, x);
        for k in 1..best {
            marks = self.one_hop(&marks, x);
            if marks[x] {
                return k;
            }
            if no_mark(&marks, self.n) {
                return best;
            }
        }
        best
    }

    // Heading by heading: only fewer hops than before count, so that the lowest heading stays. A circle is found at its lowest heading.
    fn shortest_circle(self) -> Option<Shortest>
        ensures { ShortestAs (held self.entry.from.now self.entry.to.now self.entry.n) result }
    {
        let mut hops = self.n + 1;
        let mut first: usize = 0;
        for x in 0..self.n {
            let k = self.back_in(x, hops);
            if k < hops {
                hops = k;
                first = x;
            }
        }
        if self.n < hops {
            return None;
        }
        Some(Shortest { hops, first })
    }

    // The lowest broader term of `here` that is marked; n if none is, or if `here` is itself past all headings.
    fn lowest_of(self, marks: &[bool; HEADINGS], here: usize) -> usize
        ensures { LowestAs (held self.entry.from.now self.entry.to.now self.entry.n) self.entry.n marks.now here result }
    {
        if self.n <= here {
            return self.n;
        }
        let start = self.place(here);
        let until = self.place(here + 1);
        let mut low = self.n;
        for i in start..until {
            let b = self.term(i);
            low = lower_of(marks[b], b, low);
        }
        low
    }

    // The circle of so many hops from `first` on, over the front of the row.
    fn put_way(self, first: usize, hops: usize, row: &mut [u16])
        requires { (first < self.n) × (hops ≤ length row.old) }
        ensures { row.new ≡ over (way_from (held self.entry.from.now self.entry.to.now self.entry.n) first hops first) row.old }
    {
        let mut here = first;
        for i in 0..hops {
            row[i] = here as u16;
            let marks = self.below_in(first, hops - 1 - i);
            here = self.lowest_of(&marks, here);
        }
    }

    // The levels or the circle: of how many headings it is.
    fn answer(self, row: &mut [u16]) -> usize
        requires { self.n ≤ length row.old }
        ensures { AnsweredAs (held self.entry.from.now self.entry.to.now self.entry.n) result row.old row.new }
    {
        match self.levels_of() {
            Some(own) => {
                put_levels(&own, self.n, row);
                0
            }
            None => match self.shortest_circle() {
                Some(s) => {
                    self.put_way(s.first, s.hops, row);
                    s.hops
                }
                // where no level settles there is a circle
                None => 0,
            },
        }
    }
}

// What an editor is told of a listing; "44 if the lent row of levels is shorter than the headings". A refusal leaves the row as it was.
pub fn save_listing(s: &[u8], row: &mut [u16]) -> Result<Saved, Refusal>
    ensures { outcome_of result row.new ≡ saved_as s.now row.old }
{
    let t = terms_of(s)?;
    let headings = t.headings;
    if row.len() < headings {
        return Err(Fault::ShortRow.at(0));
    }
    let rows = Rows {
        from: &t.from,
        to: &t.to,
        n: headings,
    };
    let circle = rows.answer(row);
    Ok(Saved { headings, circle })
}
