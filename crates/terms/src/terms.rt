// What a listing says of broader terms, in two rows of numbers: those of heading x are `to[from[x] .. from[x + 1]]`, in listing order.
ghost use Rattle.std.specs.Prelude.{◌≡◌, ◌+◌, ◌≤◌, ◌<◌, length, set};
ghost use Rattle.tagged.specs.Lines.{line_of, lines_of};
ghost use Rattle.terms.specs.Places.{bytes_of};
ghost use Rattle.tagged.specs.Listing.{number_of, headings_of, broader_in};
ghost use Rattle.terms.specs.TermRows.{TermsAs, terms_told, told_of, most_headings};
ghost use Rattle.terms.specs.Gathering.{AllNoted, RoomToNote, LineNoted};
ghost use Rattle.terms.specs.Gathering.{FewHeadings, Within, RoomFor, LineTaken, grown_by, sum_opened, sum_added, within_by};

use super::faults::{Fault, Refusal};
use super::judge::judged;
use super::lines::{Form, form_of, line_end, same};
use limits::Limits;

// "1,024 symbols", of which each heading has three.
pub const HEADINGS: usize = 341;

// Where each heading's row opens, and where the last one ends.
pub const ROWS: usize = 342;

// More than enough: each term takes 12 bytes of a book's 32,768. The most that fit are 2,556, of 160 headings, in 32,757 bytes.
pub const TERMS: usize = 2736;

// "64 nodes in one expression": the rule for all terms above a heading has 4 k - 1, for k broader terms.
const OWN: usize = 16;

// How many headings there are, the size of their book, and the two rows.
#[derive(Clone, Copy)]
pub struct Terms {
    pub headings: usize,
    pub size: usize,
    pub from: [u16; ROWS],
    pub to: [u16; TERMS],
}

// One heading more is noted, if the line from `at` to its newline at `end` is a heading's own.
fn note_line(
    s: &[u8],
    at: usize,
    end: usize,
    count: usize,
    opens: &mut [usize; HEADINGS],
    ends: &mut [usize; HEADINGS],
) -> usize
    requires { (at ≤ end) × (end ≤ length s.now) × RoomToNote (line_of (bytes_of s.now at end)) count }
    ensures { LineNoted (line_of (bytes_of s.now at end)) at end count result
        opens.old opens.new ends.old ends.new }
{
    let f = form_of(s, at, end);
    match f {
        Form::Heading => {
            opens[count] = at;
            ends[count] = end;
            count + 1
        }
        Form::Broader => count,
        Form::Narrower => count,
        Form::Other => count,
    }
}

// All headings of a listing, by the places where their names open and end, so that a name is looked up without going over the lines again.
#[derive(Drop)]
struct Headings<'a> {
    s: &'a [u8],
    // Rows side by side, of fixed size: an array of pairs is no plainer, as Noted and LineNoted say each of one row.
    opens: [usize; HEADINGS],
    ends: [usize; HEADINGS],
    count: usize,
    ghost noted: { AllNoted s.now opens ends count },
}

impl<'a> Headings<'a> {
    // Line by line.
    fn noted(s: &'a [u8]) -> Headings<'a>
        requires { length (headings_of (lines_of s.now)) ≤ most_headings }
        ensures { result.s.now ≡ s.now }
    {
        let mut opens = [0usize; HEADINGS];
        let mut ends = [0usize; HEADINGS];
        let mut count: usize = 0;
        let mut at: usize = 0;
        // a hop: the next line opens behind this one's end
        while at < s.len() {
            let end = line_end(s, at);
            if s.len() <= end {
                break;
            }
            count = note_line(s, at, end, count, &mut opens, &mut ends);
            at = end + 1;
        }
        Headings {
            s,
            opens,
            ends,
            count,
        }
    }

    // "Headings are numbered by their own lines": the number of the heading with the name from `from` to `until`.
    fn number_of(&self, from: usize, until: usize) -> usize
        requires { until ≤ length self.now.s.now }
        ensures { result ≡ number_of (bytes_of self.now.s.now from until) (headings_of (lines_of self.now.s.now)) }
    {
        for x in 0..self.count {
            if same(self.s, from, until, self.opens[x], self.ends[x]) {
                return x;
            }
        }
        self.count
    }
}

// What the lines so far give: how many headings, how many broader terms the last of them has, how many there are in all, and how many bytes
// the book of these has.
#[derive(Clone, Copy)]
pub struct Sum {
    pub headings: usize,
    pub own: usize,
    pub terms: usize,
    pub size: usize,
}

// What one more broader term adds to the book: 4 bytes in the first rule and 8 in the second; the first one takes the place of two rules to fail.
fn grown(own: usize) -> usize
    ensures { result ≡ grown_by own }
{
    if own == 0 {
        return 8;
    }
    12
}

// What the lines so far give, and the rows of their broader terms.
#[derive(Drop)]
struct Listed {
    sum: Sum,
    from: [u16; ROWS],
    to: [u16; TERMS],
}

impl Listed {
    // A heading's own line: its row opens where the last one ends. Three symbols of 3 bytes and two rules to fail, of 4 each.
    fn open_row(&mut self)
        requires { Within self.old.sum × (self.old.sum.headings < most_headings) }
        ensures sums { self.new.sum ≡ sum_opened self.old.sum }
        ensures row_opens { self.new.from ≡ set self.old.from (self.old.sum.headings + 1) self.old.sum.terms }
        ensures same_terms { self.new.to ≡ self.old.to }
    {
        self.sum.headings += 1;
        self.sum.own = 0;
        self.sum.size += 17;
        self.from[self.sum.headings] = self.sum.terms as u16;
    }

    // A BT line: one more term in the last heading's row.
    fn add_term(&mut self, term: usize)
        requires { Within self.old.sum × (term < most_headings) }
        ensures added { self.new.sum ≡ sum_added self.old.sum }
        ensures row_ends { self.new.from ≡ set self.old.from self.old.sum.headings (self.old.sum.terms + 1) }
        ensures term_noted { self.new.to ≡ set self.old.to self.old.sum.terms term }
    {
        self.to[self.sum.terms] = term as u16;
        self.sum.terms += 1;
        self.from[self.sum.headings] = self.sum.terms as u16;
        self.sum.size += grown(self.sum.own);
        self.sum.own += 1;
    }

    // What the line from `at` to its newline at `end` adds.
    fn take_line(&mut self, known: &Headings<'_>, at: usize, end: usize)
        requires { (at ≤ end) × (end ≤ length known.now.s.now) × Within self.old.sum
            × RoomFor (headings_of (lines_of known.now.s.now)) (line_of (bytes_of known.now.s.now at end)) self.old.sum }
        ensures { LineTaken (headings_of (lines_of known.now.s.now)) (line_of (bytes_of known.now.s.now at end)) self.old.sum self.new.sum
            self.old.from self.new.from self.old.to self.new.to }
    {
        match form_of(known.s, at, end) {
            Form::Heading => self.open_row(),
            Form::Broader => self.add_term(known.number_of(at + 5, end)),
            Form::Narrower => {}
            Form::Other => {}
        }
    }
}

// No size of document 01 is passed so far; "43" stands for each alike.
fn is_within(sum: Sum) -> bool
    ensures { result ≡ within_by sum }
{
    if OWN < sum.own {
        return false;
    }
    sum.size <= Limits::BOOK
}

// The terms of a good listing, in one pass over its lines; 43 as soon as a size is passed.
fn gathered(s: &[u8]) -> Result<Terms, Refusal>
    requires { FewHeadings (broader_in s.now) }
    ensures { (told_of result ≡ terms_told (broader_in s.now)) × TermsAs (told_of result) (broader_in s.now) }
{
    let known = Headings::noted(s);
    let mut rows = Listed {
        sum: Sum {
            headings: 0,
            own: 0,
            terms: 0,
            size: 5,
        },
        from: [0u16; ROWS],
        to: [0u16; TERMS],
    };
    let mut at: usize = 0;
    // a hop: the next line opens behind this one's end
    while at < s.len() {
        let end = line_end(s, at);
        rows.take_line(&known, at, end);
        if !is_within(rows.sum) {
            return Err(Fault::Size.at(0));
        }
        at = end + 1;
    }
    Ok(Terms {
        headings: rows.sum.headings,
        size: rows.sum.size,
        from: rows.from,
        to: rows.to,
    })
}

// 40 to 42 and, for the sizes of document 01, 43; else the terms.
pub fn terms_of(s: &[u8]) -> Result<Terms, Refusal>
    ensures { (told_of result ≡ terms_told (broader_in s.now)) × TermsAs (told_of result) (broader_in s.now) }
{
    let headings = judged(s)?;
    if HEADINGS < headings {
        return Err(Fault::Size.at(0));
    }
    gathered(s)
}
