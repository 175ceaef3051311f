// The tree part of a book from its rows. A row is read along, to know which of its numbers are symbols: these take two bytes, as does the tree's length, which
// stands for the number that opens the row; all others take one.
ghost use Rattle.std.specs.Prelude.{◌≡◌, ◌+◌, ◌*◌, ◌<◌, ◌≤◌, length, get_or};
ghost use Rattle.limits.specs.Sizes.{most_book_bytes};
ghost use Rattle.writer.specs.Rows.{rows_in};
ghost use Rattle.writer.specs.Layout.{byte_of, behind_tree, behind_expr, number_bytes, tree_row_bytes, item_bytes, items_bytes, tree_part_bytes};
ghost use Rattle.writer.specs.Layout.{behind as behindIn};
ghost use Rattle.writer.specs.InCode.{next_by, due_by, Put, PutIfFits};

use super::made::Made;
use super::put::{put_byte, put_two};
use super::rows::behind_row;
use expressions::Code;

// The length of a row with numbers missing: it runs past every book.
const PAST_EVERY_BOOK: usize = 65535;

// What the next number of a tree's row is.
#[derive(Clone, Copy, Debug, PartialEq, Eq)]
pub enum Next {
    Code,
    Variable,
    Symbol,
}

// That, and how many expressions are still to come behind it; where none is, the next code is a tree's.
#[derive(Clone, Copy, Debug, PartialEq, Eq)]
pub struct Due {
    pub next: Next,
    pub expressions: usize,
}

// A number as a byte; one that no byte holds becomes 255, which no book has where one byte stands for a row's number.
#[tactic(auto, unfolding(crate::specs::Layout::byte_of))]
pub(crate) fn byte_of(n: u16) -> u8
    ensures { result ≡ byte_of n }
{
    n.min(255) as u8
}

// What is due behind a tree's code.
#[tactic(auto, unfolding(crate::specs::Layout::behind_tree))]
fn behind_tree(n: u16) -> Due
    ensures { due_by result ≡ behind_tree n }
{
    match n {
        1 => Due {
            next: Next::Code,
            expressions: 1,
        },
        2 => Due {
            next: Next::Variable,
            expressions: 0,
        },
        _ => Due {
            next: Next::Code,
            expressions: 0,
        },
    }
}

// What is due behind an expression's code, with others to come.
#[tactic(auto, unfolding(crate::specs::Layout::behind_expr))]
fn behind_expr(others: usize, n: u16) -> Due
    requires { others < 4294967296 }
    ensures { due_by result ≡ behind_expr others n }
{
    if n == Code::Variable as u16 {
        Due {
            next: Next::Variable,
            expressions: others,
        }
    } else if n == Code::Apply as u16 {
        Due {
            next: Next::Symbol,
            expressions: others,
        }
    } else if n == Code::Choice as u16 {
        Due {
            next: Next::Code,
            expressions: 2 + others,
        }
    } else {
        Due {
            next: Next::Code,
            expressions: others,
        }
    }
}

// How many arguments symbol f takes, none if it is not there.
fn arity(arities: &[u8], f: u16) -> usize
    ensures { (result ≡ get_or arities.now f 0) × (result < 256) }
{
    arities.get(f as usize).copied().unwrap_or(0) as usize
}

// What is due behind a number of a row.
fn behind(arities: &[u8], d: Due, n: u16) -> Due
    requires { d.expressions < 4294967296 }
    ensures { (due_by result ≡ behindIn arities.now (due_by d) n) × (result.expressions ≤ d.expressions + 255) }
{
    let expressions = d.expressions;
    match d.next {
        Next::Code => {
            if expressions == 0 {
                behind_tree(n)
            } else {
                behind_expr(expressions - 1, n)
            }
        }
        Next::Variable => Due {
            next: Next::Code,
            expressions,
        },
        Next::Symbol => Due {
            next: Next::Code,
            expressions: arity(arities, n) + expressions,
        },
    }
}

impl Made {
    // Puts a number of a row.
    fn put_number(&mut self, next: Next, n: u16)
        requires { self.old.size < 4294967296 }
        ensures put { Put (number_bytes (next_by next) n) self.old self.new }
        ensures near { self.new.size ≤ self.old.size + 2 }
    {
        match next {
            Next::Symbol => {
                put_two(&mut self.bytes, self.size, n as usize);
                self.size += 2;
            }
            _ => {
                put_byte(&mut self.bytes, self.size, byte_of(n));
                self.size += 1;
            }
        }
    }

    // Puts the numbers of a row.
    fn put_numbers(&mut self, arities: &[u8], row: &[u16])
        requires { (self.old.size < 32 * most_book_bytes) × (length row.now ≤ most_book_bytes) }
        ensures put { Put (tree_row_bytes arities.now row.now) self.old self.new }
        ensures near { self.new.size ≤ self.old.size + 2 * length row.now }
    {
        let mut d = Due {
            next: Next::Code,
            expressions: 0,
        };
        for n in row {
            self.put_number(d.next, *n);
            d = behind(arities, d, *n);
        }
    }

    // Puts a tree behind its two-byte length. Its row says that it has n numbers; where some are missing the length runs past every book.
    fn put_item(&mut self, arities: &[u8], n: usize, row: &[u16])
        requires { (self.old.size < 16 * most_book_bytes) × (length row.now ≤ most_book_bytes) }
        ensures put { PutIfFits (item_bytes arities.now (record { says = n; numbers = row.now })) self.old self.new }
        ensures near { self.new.size ≤ self.old.size + 2 + 2 * length row.now }
    {
        let p = self.size;
        self.size += 2;
        self.put_numbers(arities, row);
        let length = if row.len() < n {
            PAST_EVERY_BOOK
        } else {
            self.size - (p + 2)
        };
        put_two(&mut self.bytes, p, length);
    }

    // Puts the trees of all rows.
    fn put_items(&mut self, arities: &[u8], rows: &[u16])
        requires { (self.old.size ≤ 2 + most_book_bytes) × (length rows.now ≤ most_book_bytes) }
        ensures { PutIfFits (items_bytes arities.now (rows_in rows.now)) self.old self.new }
    {
        let mut i: usize = 0;
        // The next place comes from the row, so this is no `for`.
        while i < rows.len() {
            let end = behind_row(rows, i);
            self.put_item(arities, rows[i] as usize, &rows[i + 1..end]);
            i = end;
        }
    }

    // Puts the tree part behind its length.
    pub(crate) fn put_trees(&mut self, arities: &[u8], rows: &[u16])
        requires { (self.old.size ≤ most_book_bytes) × (length rows.now ≤ most_book_bytes) }
        ensures { PutIfFits (tree_part_bytes arities.now rows.now) self.old self.new }
    {
        let p = self.size;
        self.size += 2;
        self.put_items(arities, rows);
        put_two(&mut self.bytes, p, self.size - (p + 2));
    }
}
