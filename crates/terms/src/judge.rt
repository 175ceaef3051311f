// Whether a listing is good: 40 and 41 line by line, then 42.
ghost use Rattle.std.specs.Prelude.{true, false, ◌+◌, ◌≡◌, [], ℕ, ◌-◌, ◌≤◌, ◌<◌, length, take, get_or};
ghost use Rattle.tagged.specs.Lines.{lines_of};
ghost use Rattle.tagged.specs.Listing.{broader_in};
ghost use Rattle.terms.specs.TermRows.{JudgedAs};
ghost use Rattle.terms.specs.Places.{bytes_of};
ghost use Rattle.terms.specs.InCode.{kind_told, worth_told};
ghost use Rattle.terms.specs.Blocks.{hash_of, table_size, name_of, Inside, Chained, Rows, Table, Sought, Entered};
ghost use Rattle.terms.specs.Blocks.{Begins, FilledAs, KnownBy, KnownFirst, until_told};
ghost use Rattle.terms.specs.Judging.{kind_of, worth, FormsAs, line_told, twice_from, name_at, line_at};
ghost use Rattle.terms.specs.Judging.{mirror_lines, next_heading, mirror_in, wants, unmirrored_from};
ghost use Rattle.terms.specs.Meeting.{Under, Met};

use super::faults::{Fault, Refusal};
use super::lines::{Form, form_of, line_end, same};

// How many lines are good, and how many headings there are, if none behind them is not.
#[derive(Clone, Copy)]
struct Forms {
    lines: usize,
    headings: Option<usize>,
}

// What the line at `at` is.
fn form_at(s: &[u8], at: usize) -> Form
    requires { at ≤ length s.now }
    ensures { kind_told result ≡ kind_of (line_at s.now at) }
{
    form_of(s, at, line_end(s, at))
}

// How many headings the line at `at` adds to so many; none is told of a line not of this form, and of a BT or NT under no heading.
fn added_at(s: &[u8], at: usize, headings: usize) -> Option<usize>
    requires { at ≤ length s.now }
    ensures { worth_told result ≡ worth headings (line_at s.now at) }
{
    match form_at(s, at) {
        Form::Heading => Some(1),
        Form::Other => None,
        Form::Broader | Form::Narrower => { if headings == 0 { None } else { Some(0) } }
    }
}

// "40 line not of this form", for all lines.
fn forms_of(s: &[u8]) -> Forms
    ensures { FormsAs result (lines_of s.now) }
{
    let mut lines: usize = 0;
    let mut headings: usize = 0;
    let mut at: usize = 0;
    // a hop: the next line opens behind this one's end
    while at < s.len() {
        let to = line_end(s, at);
        if s.len() <= to {
            return Forms {
                lines,
                headings: None,
            };
        }
        let Some(added) = added_at(s, at, headings) else {
            return Forms {
                lines,
                headings: None,
            };
        };
        headings += added;
        lines += 1;
        at = to + 1;
    }
    Forms {
        lines,
        headings: Some(headings),
    }
}

// How many entries a table of names has, and how many hashes there are.
pub const TABLE: usize = 8192;

// How far a table was filled.
#[derive(Clone, Copy)]
enum Filled {
    // This line gives one of its headings again.
    Twice(usize),
    // It is full, and the next line, of this number, stands at this place.
    Full { at: usize, line: usize },
    // No line is left.
    Over,
}

fn hash_of(s: &[u8], from: usize, until: usize) -> usize
    requires { until ≤ length s.now }
    ensures { (result ≡ hash_of (bytes_of s.now from until)) × (result < table_size) }
{
    let mut h: usize = 0;
    for i in from..until {
        h = (h * 257 + usize::from(s[i])) % 4294967291;
    }
    h % TABLE
}

// What a line is to a table of headings: it gives one of them again, a new one, or none.
#[derive(Clone, Copy)]
enum Entry {
    Given,
    New,
    NoHeading,
}

// Headings, found by their names: the place of each, the entry before it whose name has the same hash, and for each hash the last entry.
// Entries are named by their numbers counted from 1; 0 is none.
#[derive(Drop)]
struct Names {
    // Rows side by side, of fixed size: an array of structs is no plainer, as `last` goes by hashes and Inside, Chained and Headed say each of one row.
    place: [usize; TABLE],
    before: [usize; TABLE],
    last: [usize; TABLE],
}

impl Names {
    // The name from `at` to `to` is one of the first `from` entries: it is sought down the chain of its hash.
    fn in_table(&self, s: &[u8], from: usize, at: usize, to: usize) -> bool
        requires inside { Inside s.now self.now.place from }
        requires chained { Chained (λ (k : ℕ). hash_of (name_of s.now self.now.place k)) self.now.before from }
        requires same_hash { 0 < from → hash_of (name_of s.now self.now.place (from - 1)) ≡ hash_of (bytes_of s.now at to) }
        requires bounds { (from ≤ table_size) × (to ≤ length s.now) }
        ensures { Sought result s.now self.now.place from (bytes_of s.now at to) }
    {
        let mut i = from;
        // a hop: the next entry is the one that this one names
        while i != 0 {
            let p = self.place[i - 1];
            let end = line_end(s, p);
            if same(s, at, to, p, end) {
                return true;
            }
            i = self.before[i - 1];
        }
        false
    }

    // The line at `at` is looked up in a table of `count` entries, and its heading entered if it is not there.
    fn enter(&mut self, s: &[u8], at: usize, count: usize) -> Entry
        requires table { Table s.now self.old.place self.old.before self.old.last count }
        requires bounds { (at ≤ length s.now) × (count < table_size) }
        ensures { Entered result s.now at count self.old.place self.old.before self.old.last
            self.new.place self.new.before self.new.last }
    {
        let Form::Heading = form_at(s, at) else {
            return Entry::NoHeading;
        };
        let to = line_end(s, at);
        let h = hash_of(s, at, to);
        let from = self.last[h];
        if self.in_table(s, from, at, to) {
            return Entry::Given;
        }
        self.place[count] = at;
        self.before[count] = from;
        self.last[h] = count + 1;
        Entry::New
    }

    // The table is filled with the headings from line `line` at `at` on, up to line `until`: each is looked up and, if it is new, entered.
    fn fill(&mut self, s: &[u8], at: usize, line: usize, until: usize) -> Filled
        requires begins { Begins s.now at line }
        requires rows { Rows self.old.place self.old.before self.old.last }
        ensures { FilledAs result s.now at line until self.new.place self.new.before self.new.last }
    {
        self.last = [0usize; TABLE];
        let mut p = at;
        let mut n = line;
        let mut count: usize = 0;
        // a hop: the next line opens behind this one's end
        while p < s.len() {
            let to = line_end(s, p);
            if s.len() <= to {
                return Filled::Over;
            }
            if until < n {
                return Filled::Over;
            }
            if count == TABLE {
                return Filled::Full { at: p, line: n };
            }
            match self.enter(s, p, count) {
                Entry::Given => return Filled::Twice(n),
                Entry::New => count += 1,
                Entry::NoHeading => {}
            }
            n += 1;
            p = to + 1;
        }
        Filled::Over
    }

    // The line at `at` gives one of a full table's headings.
    fn known_at(&self, s: &[u8], at: usize) -> bool
        requires table { Table s.now self.now.place self.now.before self.now.last table_size }
        requires inside { at ≤ length s.now }
        ensures { KnownBy result s.now self.now.place at }
    {
        let Form::Heading = form_at(s, at) else {
            return false;
        };
        let to = line_end(s, at);
        let h = hash_of(s, at, to);
        let from = self.last[h];
        self.in_table(s, from, at, to)
    }

    // The first line from line `line` at `at` on, up to line `until`, that gives one of a full table's headings.
    fn first_known(&self, s: &[u8], at: usize, line: usize, until: usize) -> Option<usize>
        requires begins { Begins s.now at line }
        requires table { Table s.now self.now.place self.now.before self.now.last table_size }
        ensures { KnownFirst s.now self.now.place line until result }
    {
        let mut p = at;
        let mut n = line;
        // a hop: the next line opens behind this one's end
        while p < s.len() {
            let to = line_end(s, p);
            if s.len() <= to {
                return None;
            }
            if until < n {
                return None;
            }
            if self.known_at(s, p) {
                return Some(n);
            }
            n += 1;
            p = to + 1;
        }
        None
    }
}

// The lines that are still of interest: those above the first one found so far.
fn until_of(best: Option<usize>, lines: usize) -> usize
    ensures { result ≡ until_told best lines }
{
    best.map_or(lines, |line| line.saturating_sub(1))
}

// "41 heading given twice": the first such line among so many. The headings are taken by blocks that fill a table, and the lines behind a
// block are looked up in it, up to the first line found so far: some lines * lines / TABLE look-ups for names whose hashes lie apart.
fn first_twice(s: &[u8], lines: usize) -> Option<usize>
    ensures { result ≡ line_told (twice_from [] 1 (take lines (lines_of s.now))) }
{
    let mut names = Names {
        place: [0usize; TABLE],
        before: [0usize; TABLE],
        last: [0usize; TABLE],
    };
    let mut best = None;
    let mut at: usize = 0;
    let mut line: usize = 1;
    // a hop: the next block begins where this one was full
    while at < s.len() {
        let until = until_of(best, lines);
        match names.fill(s, at, line, until) {
            Filled::Twice(twice) => return Some(twice),
            Filled::Over => return best,
            Filled::Full { at: next, line: n } => {
                best = names.first_known(s, next, n, until).or(best);
                at = next;
                line = n;
            }
        }
    }
    best
}

// A BT and an NT.
fn are_opposite(a: Form, b: Form) -> bool
    ensures { (result ≡ true → kind_told a + kind_told b ≡ 5) × (result ≡ false → kind_told a + kind_told b ≡ 5 → ⊥) }
{
    matches!(
        (a, b),
        (Form::Broader, Form::Narrower) | (Form::Narrower, Form::Broader)
    )
}

// The line at q, under the heading at g, is the mirror of the one at p, under the heading at h.
fn is_mirror(s: &[u8], h: usize, p: usize, g: usize, q: usize) -> bool
    requires { (h ≤ length s.now) × (p ≤ length s.now) × (g ≤ length s.now) × (q ≤ length s.now) }
    ensures { result ≡ mirror_lines (name_at s.now h) (line_at s.now p) (name_at s.now g) (line_at s.now q) }
{
    // most lines differ in the name, which is told soonest
    let q_end = line_end(s, q);
    let h_end = line_end(s, h);
    if same(s, q + 5, q_end, h, h_end) {
        if !are_opposite(form_at(s, p), form_at(s, q)) {
            return false;
        }
        let p_end = line_end(s, p);
        let g_end = line_end(s, g);
        return same(s, g, g_end, p + 5, p_end);
    }
    false
}

// The heading under which the line behind `at` stands.
fn next_heading(s: &[u8], g: usize, at: usize) -> usize
    requires { (g ≤ length s.now) × (at ≤ length s.now) }
    ensures { (result ≤ length s.now) × (name_at s.now result ≡ next_heading (name_at s.now g) (line_at s.now at)) }
{
    // no heading opens with a space
    if at < s.len() {
        if s[at] == 32 {
            return g;
        }
    }
    match form_at(s, at) {
        Form::Heading => at,
        _ => g,
    }
}

// The line at p, under the heading at h, has its mirror somewhere.
fn has_mirror(s: &[u8], h: usize, p: usize) -> bool
    requires { (h ≤ length s.now) × (p ≤ length s.now) }
    ensures { result ≡ mirror_in (name_at s.now h) (line_at s.now p) [] (lines_of s.now) }
{
    let mut g = s.len();
    let mut at: usize = 0;
    // a hop: the next line opens behind this one's end
    while at < s.len() {
        let to = line_end(s, at);
        if s.len() <= to {
            return false;
        }
        if is_mirror(s, h, p, g, at) {
            return true;
        }
        g = next_heading(s, g, at);
        at = to + 1;
    }
    false
}

// A number for the bytes from `from` to `until`. Which one, and so what is noted under it, counts for the time alone: a line is met only by `is_mirror`.
fn mix_of(s: &[u8], from: usize, until: usize) -> usize
    requires { until ≤ length s.now }
    ensures { result < 1048576 }
{
    let mut h: usize = 0;
    for i in from..until {
        h = (h * 31 + usize::from(s[i])) % 1048576;
    }
    h
}

// Which of two mirrors a line is. The number goes into the line's key.
#[derive(Clone, Copy)]
enum Side {
    Broader = 1,
    Narrower = 2,
    Neither = 3,
}

impl Side {
    // That of its mirror.
    fn other(self) -> Side {
        match self {
            Side::Neither => Side::Neither,
            Side::Broader => Side::Narrower,
            Side::Narrower => Side::Broader,
        }
    }
}

// By the first letter alone.
fn side_at(s: &[u8], p: usize) -> Side
    requires { p ≤ length s.now }
{
    if s.len() <= p + 2 {
        return Side::Neither;
    }
    if s[p] != b' ' {
        return Side::Neither;
    }
    if s[p + 2] == b'B' {
        return Side::Broader;
    }
    Side::Narrower
}

// The key of a BT or NT, by the name of its heading, the name in it, and which of the two it is. Its mirror has the names exchanged, and the other side.
fn key_of(s: &[u8], from: usize, to: usize, start: usize, end: usize, side: Side) -> usize
    requires { (to ≤ length s.now) × (end ≤ length s.now) }
    ensures { result < table_size }
{
    let first = mix_of(s, from, to);
    let second = mix_of(s, start, end);
    (first * 7919 + second + side as usize) % TABLE
}

// Lines noted, to be met by their mirrors: the place of each, that of its heading, the entry before it whose mirror has the same key, and for
// each key the last entry. Entries are named by their numbers counted from 1 in the two rows behind; 0 is none.
#[derive(Drop)]
struct Noted {
    // Rows side by side, of fixed size, as those of Names: `last` goes by keys, and Met says of `place` and `head` alone.
    place: [usize; TABLE],
    head: [usize; TABLE],
    before: [usize; TABLE],
    last: [usize; TABLE],
}

impl Noted {
    // The line at p, under the heading at g, is noted as entry k, and linked to the last entry whose mirror has the same key.
    fn note_line(&mut self, s: &[u8], g: usize, p: usize, k: usize)
        requires { (g ≤ length s.now) × (p ≤ length s.now) × (k < table_size) }
    {
        let p_end = line_end(s, p);
        let g_end = line_end(s, g);
        let side = side_at(s, p);
        let key = key_of(s, p + 5, p_end, g, g_end, side.other());
        self.place[k] = p;
        self.head[k] = g;
        self.before[k] = self.last[key];
        self.last[key] = k + 1;
    }

    // The lines from `at` on, the first of which stands under the heading at h, are noted, up to TABLE of them.
    fn note_lines(&mut self, s: &[u8], h: usize, at: usize)
        requires { (h ≤ length s.now) × (at ≤ length s.now) }
    {
        let mut g = h;
        let mut p = at;
        let mut k: usize = 0;
        // a hop: the next line opens behind this one's end
        while p < s.len() {
            let to = line_end(s, p);
            if s.len() <= to {
                return;
            }
            if TABLE <= k {
                return;
            }
            self.note_line(s, g, p, k);
            g = next_heading(s, g, p);
            k += 1;
            p = to + 1;
        }
    }

    // Entry k is met if the line at q, under the heading at g, is its mirror. True if it was met before: so were then all those like it.
    fn meet_entry(&self, s: &[u8], g: usize, q: usize, k: usize, met: &mut [bool; TABLE]) -> bool
        requires under { Under s.now g q }
        requires mirrored { Met s.now self.now.place self.now.head met.old }
        requires entry { k < table_size }
        ensures { Met s.now self.now.place self.now.head met.new }
    {
        let p = self.place[k];
        let h = self.head[k];
        if s.len() < p {
            return false;
        }
        if s.len() < h {
            return false;
        }
        if is_mirror(s, h, p, g, q) {
            if met[k] {
                return true;
            }
            met[k] = true;
        }
        false
    }

    // The entries whose mirror is the line at q, under the heading at g, are met: they are sought down the chain of its key.
    fn meet_line(&self, s: &[u8], g: usize, q: usize, met: &mut [bool; TABLE])
        requires under { Under s.now g q }
        requires mirrored { Met s.now self.now.place self.now.head met.old }
        ensures { Met s.now self.now.place self.now.head met.new }
    {
        let side = side_at(s, q);
        if let Side::Neither = side {
            return;
        }
        let g_end = line_end(s, g);
        let q_end = line_end(s, q);
        let key = key_of(s, g, g_end, q + 5, q_end, side);
        let mut i = self.last[key];
        // a hop: the next entry is the one that this one names
        while i != 0 {
            if TABLE < i {
                return;
            }
            if self.meet_entry(s, g, q, i - 1, met) {
                return;
            }
            let next = self.before[i - 1];
            if i <= next {
                return;
            }
            i = next;
        }
    }

    // All lines of the listing: each meets the entries whose mirror it is.
    fn meet_lines(&self, s: &[u8], met: &mut [bool; TABLE])
        requires { Met s.now self.now.place self.now.head met.old }
        ensures { Met s.now self.now.place self.now.head met.new }
    {
        let mut g = s.len();
        let mut at: usize = 0;
        // a hop: the next line opens behind this one's end
        while at < s.len() {
            let to = line_end(s, at);
            if s.len() <= to {
                return;
            }
            self.meet_line(s, g, at, met);
            g = next_heading(s, g, at);
            at = to + 1;
        }
    }

    // Entry k is the line at p, under the heading at h.
    fn is_noted(&self, h: usize, p: usize, k: usize) -> bool
        ensures { result ≡ true → (k < table_size) × (get_or self.now.place k 0 ≡ p) × (get_or self.now.head k 0 ≡ h) }
    {
        k < TABLE && self.place[k] == p && self.head[k] == h
    }

    // The entry of the line at p, under the heading at h: it is k, or the lines from there on are noted and met anew.
    fn entry_at(&mut self, s: &[u8], h: usize, p: usize, k: usize, met: &mut [bool; TABLE]) -> usize
        requires places { (h ≤ length s.now) × (p ≤ length s.now) }
        requires mirrored { Met s.now self.old.place self.old.head met.old }
        ensures low { result ≤ k }
        ensures mirrored { Met s.now self.new.place self.new.head met.new }
    {
        if self.is_noted(h, p, k) {
            return k;
        }
        *met = [false; TABLE];
        self.before = [0usize; TABLE];
        self.last = [0usize; TABLE];
        self.note_lines(s, h, p);
        self.meet_lines(s, met);
        0
    }

    // Entry k is the line at p, under the heading at h, and it is met.
    fn is_met(&self, h: usize, p: usize, k: usize, met: &[bool; TABLE]) -> bool
        ensures { result ≡ true → (get_or self.now.place k 0 ≡ p) × (get_or self.now.head k 0 ≡ h) × (get_or met.now k false ≡ true) }
    {
        if self.is_noted(h, p, k) {
            return met[k];
        }
        false
    }

    // The line at p, under the heading at h, is a BT or NT without its mirror. Only one that has not been met is sought among all lines.
    fn lacks_mirror(&self, s: &[u8], h: usize, p: usize, k: usize, met: &[bool; TABLE]) -> bool
        requires places { (h ≤ length s.now) × (p ≤ length s.now) }
        requires mirrored { Met s.now self.now.place self.now.head met.now }
        ensures { result ≡ wants (lines_of s.now) (name_at s.now h) (line_at s.now p) }
    {
        if let Form::Heading | Form::Other = form_at(s, p) {
            return false;
        }
        if self.is_met(h, p, k, met) {
            return false;
        }
        if has_mirror(s, h, p) {
            return false;
        }
        true
    }
}

// "42 a BT or NT whose mirror line is missing": the first such line. TABLE lines at a time are noted, and all lines looked up among them:
// some lines * lines / TABLE look-ups for names whose hashes lie apart. A line that is met has its mirror; one that is not is sought among all.
fn first_unmirrored(s: &[u8]) -> Option<usize>
    ensures { result ≡ line_told (unmirrored_from (lines_of s.now) [] 1 (lines_of s.now)) }
{
    let mut noted = Noted {
        place: [0usize; TABLE],
        head: [0usize; TABLE],
        before: [0usize; TABLE],
        last: [0usize; TABLE],
    };
    let mut met = [false; TABLE];
    let mut h = s.len();
    let mut line: usize = 1;
    let mut at: usize = 0;
    let mut k: usize = 0;
    // a hop: the next line opens behind this one's end
    while at < s.len() {
        let to = line_end(s, at);
        if s.len() <= to {
            return None;
        }
        let e = noted.entry_at(s, h, at, k, &mut met);
        if noted.lacks_mirror(s, h, at, e, &met) {
            return Some(line);
        }
        h = next_heading(s, h, at);
        line += 1;
        k = e + 1;
        at = to + 1;
    }
    None
}

// How many headings a good listing has, or the first fault of one that is not.
pub(crate) fn judged(s: &[u8]) -> Result<usize, Refusal>
    ensures { JudgedAs result (broader_in s.now) }
{
    if s.len() == 0 {
        return Err(Fault::BadLine.at(1));
    }
    let f = forms_of(s);
    if let Some(line) = first_twice(s, f.lines) {
        return Err(Fault::HeadingTwice.at(line));
    }
    match f.headings {
        Some(headings) => match first_unmirrored(s) {
            Some(line) => Err(Fault::NoMirror.at(line)),
            None => Ok(headings),
        },
        None => Err(Fault::BadLine.at(f.lines + 1)),
    }
}
