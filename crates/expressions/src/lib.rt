// Expressions: the reader of one and the reader of a row of them call each other, and the node allowance left falls. A shared part (version
// 2) is no node: those that stand directly in each other are read by a loop, and a body binds a variable, of which there are few. So
// however many bytes there are, the calls stand no deeper than the 64 nodes and 32 variables of a path let them.
#![tactic(auto)]

ghost use Rattle.std.specs.Prelude.{[], ◌∷◌, ◌++◌, ◌≡◌, ℕ, ◌+◌, ◌<◌, ◌≤◌, length, take};
ghost use Rattle.std.specs.Option.{MatchOption};
ghost use Rattle.std.specs.Result.{MatchResult};
ghost use Rattle.limits.specs.Sizes.{most_variables};
ghost use Rattle.reading.specs.Answer.{reading_of, refusal_number, keeping, base_of, part_of};
ghost use Rattle.symbols.specs.Table.{symbols_in};
ghost use Rattle.expressions.specs.ExpressionAt.{left_of, row_with, whole_at};
ghost use Rattle.expressions.specs.Items.{variable_in, applied_in, shared_in, expr_in};
ghost use Rattle.expressions.specs.Codes.{number_of};
ghost use Rattle.expressions.specs.Whose.{whose};

use limits::Limits;
use reading::{Asker, Fault, Reading, Refusal, between, byte, number, part_of, wide_byte};
use symbols::table::{arguments_of, sort_of};

// The code of an expression, as it stands in a book or a question.
#[derive(Clone, Copy, Debug, PartialEq, Eq)]
pub enum Code {
    Variable = 0,
    Apply = 1,
    Choice = 2,
    Fail = 3,
    // Version byte 2 allows it.
    Shared = 4,
}

impl Code {
    // The code that a byte is; those above 4 are none.
    pub fn of(byte: u8) -> Option<Code>
        ensures { MatchOption result (4 < byte) (λ code. byte ≡ number_of code) }
    {
        match byte {
            0 => Some(Code::Variable),
            1 => Some(Code::Apply),
            2 => Some(Code::Choice),
            3 => Some(Code::Fail),
            4 => Some(Code::Shared),
            _ => None,
        }
    }
}

// The part of one of two lent slices that holds an expression, by who asked.
fn part<'a>(book: &'a [u8], question: &'a [u8], who: Asker, from: usize, to: usize) -> &'a [u8]
    ensures { result.now ≡ part_of (whose who book.now question.now) from to }
{
    match who {
        Asker::Book => part_of(book, from, to),
        Asker::Question => part_of(question, from, to),
    }
}

// An item that is all of s, in the book or in a question, and the book's symbols, whose places are `at`.
#[derive(Clone, Copy)]
struct Item<'a> {
    book: &'a [u8],
    at: &'a [u16],
    s: &'a [u8],
    who: Asker,
}

// The sorts of the variables bound, and of one more behind them: there is no heap, so in an array with room for all that may be bound.
fn with_one_more(vars: &[u8], sort: u8) -> [u8; Limits::VARIABLES]
    requires { length vars.now < most_variables }
    ensures { take (length vars.now + 1) result ≡ vars.now ++ (sort ∷ []) }
{
    let mut more = [0u8; Limits::VARIABLES];
    more[..vars.len()].copy_from_slice(vars);
    more[vars.len()] = sort;
    more
}

impl<'a> Item<'a> {
    // A variable, whose code stands at p, of the sort asked for; `vars` are the sorts of those bound on the path.
    fn read_variable(&self, vars: &[u8], sort: u8, left: usize, p: usize) -> Reading
        ensures { reading_of result ≡ keeping left_of (variable_in self.now vars.now sort left p) }
    {
        let e = self.s.len();
        if between(p, e) < 2 {
            return Err(Fault::Extent.at(self.who, e));
        }
        let x = wide_byte(self.s, p + 1);
        if vars.len() <= x {
            return Err(Fault::Code.at(self.who, p + 1));
        }
        if vars[x] != sort {
            return Err(Fault::Sort.at(self.who, p));
        }
        Ok((left, p + 2))
    }

    // The symbol of an application whose code stands at p, of the sort asked for.
    fn read_applied(&self, sort: u8, p: usize) -> Reading
        ensures { reading_of result ≡ applied_in self.now sort p }
    {
        let e = self.s.len();
        if between(p, e) < 3 {
            return Err(Fault::Extent.at(self.who, e));
        }
        let f = number(self.s, p + 1);
        if self.at.len() <= f {
            return Err(Fault::Code.at(self.who, p + 1));
        }
        if sort_of(self.book, self.at, f) != sort {
            return Err(Fault::Sort.at(self.who, p));
        }
        Ok((f, p + 3))
    }

    // The allowance that is left behind a node whose code stands at p.
    fn take_node(&self, left: usize, p: usize) -> Result<usize, Refusal>
        ensures { MatchResult result (λ less. left ≡ less + 1) (λ r. (left ≡ 0) × (refusal_number r ≡ base_of self.now.who + 4) × (r.place ≡ p)) }
    {
        left.checked_sub(1).ok_or(Fault::Code.at(self.who, p))
    }

    // The body of a shared part of sort t, at p behind its first, with one variable more: the allowance left behind it.
    #[cycle(reading)]
    fn read_body(&self, vars: &[u8], t: u8, sort: u8, left: usize, p: usize) -> Reading
        requires { length vars.now < most_variables }
        ensures { (f : ℕ) → length self.now.s.now ≤ p + f → reading_of result ≡ keeping left_of (expr_in self.now f (vars.now ++ (t ∷ [])) sort left p) }
    {
        let more = with_one_more(vars, t);
        let bound = vars.len() + 1;
        self.read_expr(&more[..bound], sort, left, p)
    }

    // A shared part, whose code stands at p, and the body behind it, in which it is one variable more: the allowance left behind them.
    // Shared parts may stand directly in each other as deep as there are bytes, so no call is made for each: their codes and sort bytes
    // are read inward, then what stands in the innermost, then the bodies outward.
    #[cycle(reading)]
    fn read_shared(&self, vars: &[u8], sort: u8, left: usize, p: usize) -> Reading
        requires { p < length self.now.s.now }
        ensures { (f : ℕ) → length self.now.s.now ≤ p + 1 + f → reading_of result ≡ keeping left_of (shared_in self.now f vars.now sort left p) }
    {
        let e = self.s.len();
        if byte(self.s, 0) != 2 {
            return Err(Fault::Code.at(self.who, p));
        }
        if Limits::VARIABLES <= vars.len() {
            return Err(Fault::Code.at(self.who, p));
        }
        let mut q = p;
        // It hops on as long as the bytes say so, so it is no `for`.
        'inward: loop {
            if between(q, e) < 2 {
                return Err(Fault::Extent.at(self.who, e));
            }
            if Limits::LAST_SORT < byte(self.s, q + 1) {
                return Err(Fault::Symbol.at(self.who, q + 1));
            }
            q += 2;
            if byte(self.s, q) != Code::Shared as u8 {
                break;
            }
        }
        let (mut rest, mut next) = self.read_expr(vars, byte(self.s, q - 1), left, q)?;
        for k in (1..(q - p) / 2).rev() {
            let first = p + 2 * k;
            let (t, around) = (byte(self.s, first + 1), byte(self.s, first - 1));
            (rest, next) = self.read_body(vars, t, around, rest, next)?;
        }
        self.read_body(vars, byte(self.s, p + 1), sort, rest, next)
    }

    // An expression of the sort asked for, at p: the allowance left behind it.
    #[cycle(reading)]
    fn read_expr(&self, vars: &[u8], sort: u8, left: usize, p: usize) -> Reading
        ensures { (f : ℕ) → length self.now.s.now ≤ p + f → reading_of result ≡ keeping left_of (expr_in self.now f vars.now sort left p) }
    {
        let e = self.s.len();
        if e <= p {
            return Err(Fault::Extent.at(self.who, e));
        }
        let Some(code) = Code::of(byte(self.s, p)) else {
            return Err(Fault::Code.at(self.who, p));
        };
        match code {
            Code::Variable => self.read_variable(vars, sort, left, p),
            Code::Apply => {
                let left = self.take_node(left, p)?;
                let (f, next) = self.read_applied(sort, p)?;
                self.read_row(vars, arguments_of(self.book, self.at, f), left, next)
            }
            Code::Choice => {
                let left = self.take_node(left, p)?;
                self.read_row(vars, &[sort, sort], left, p + 1)
            }
            Code::Fail => Ok((self.take_node(left, p)?, p + 1)),
            Code::Shared => self.read_shared(vars, sort, left, p),
        }
    }

    // A row of expressions, one for each of the sorts: the allowance left behind it.
    #[cycle(reading)]
    fn read_row(&self, vars: &[u8], sorts: &[u8], left: usize, p: usize) -> Reading
        ensures { (f : ℕ) → length self.now.s.now ≤ p + f → reading_of result ≡ keeping left_of (row_with (expr_in self.now f vars.now) sorts.now left p) }
    {
        let mut rest = left;
        let mut next = p;
        for sort in sorts {
            (rest, next) = self.read_expr(vars, *sort, rest, next)?;
        }
        Ok((rest, next))
    }
}

// A whole expression, in an item that ends at e: what is left of the nodes that it may have.
// It is public and its clause names each parameter, so it takes no `Item` but makes one.
pub fn read_whole<'a>(
    book: &'a [u8],
    question: &'a [u8],
    who: Asker,
    at: &[u16],
    e: usize,
    vars: &[u8],
    sort: u8,
    p: usize,
) -> Reading
    ensures { reading_of result ≡ keeping left_of (whole_at (part_of (whose who book.now question.now) 0 e) (base_of who) (symbols_in book.now at.now) (length (part_of (whose who book.now question.now) 0 e)) vars.now sort p) }
{
    let s = part(book, question, who, 0, e);
    let item = Item { book, at, s, who };
    item.read_expr(vars, sort, Limits::EXPRESSION, p)
}
