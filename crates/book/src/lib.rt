// Admission of a whole book, and the index that a run needs.
#![tactic(auto)]

ghost use Rattle.std.specs.Prelude.{◌≡◌, ◌+◌, ◌≤◌, length, IfOk};
ghost use Rattle.limits.specs.Sizes.{most_symbols};
ghost use Rattle.reading.specs.Answer.{reading_of, reading_by, keeping};
ghost use Rattle.book.specs.declared.BookIndex.{BookIndex};
ghost use Rattle.book.specs.Rules.{Rules};
ghost use Rattle.book.specs.Admission.{read_book};
ghost use Rattle.book.specs.Index.{at_after, info_after, ends_after};
ghost use Rattle.book.specs.RowsRead.{rows_read};

mod path;
mod table;
mod trees;

use limits::Limits;
use reading::{Reading, Refusal};
use symbol_part::{symbol_rows, symbols_read};
use table::Table;
use trees::{read_tree_part, trees_read};

// A book as it was read: how many symbols it has and the place behind it, or the refusal; and its index. After a refusal all three arrays
// are zeros. They stand beside the reading, not in a Result, where they would be cleared and copied once more; for the same reason each
// refusal writes its own zeros, and callers take out a field before they use it.
#[derive(Clone, Copy)]
pub struct BookRead {
    pub reading: Reading,
    pub at: [u16; Limits::SYMBOLS],
    pub info: [u16; Limits::SYMBOLS],
    pub ends: [u16; Limits::BOOK],
}

// A book that was read: how many symbols it has, the place behind it, and its index. `at` has the place of each symbol; `info` an
// operation's tree, or which of its sort's constructors a symbol is; `ends` at the place of each tree the place behind it. There is no
// heap: arrays of fixed size hold what any book may have.
#[derive(Clone, Copy)]
pub struct BookIndex {
    pub count: usize,
    pub next: usize,
    pub at: [u16; Limits::SYMBOLS],
    pub info: [u16; Limits::SYMBOLS],
    pub ends: [u16; Limits::BOOK],
}

// Reads a whole book, or hands out the first fault met; and its index.
pub fn index_book(book: &[u8]) -> BookRead
    ensures { (reading_of result.reading ≡ keeping (λ (x : Rules). length x.symbols) (read_book book.now)) × (result.at ≡ at_after (read_book book.now)) × (result.info ≡ info_after (read_book book.now)) × (result.ends ≡ ends_after (read_book book.now)) }
{
    let symbols = symbol_rows(book);
    let reading = symbols.reading;
    match reading {
        Ok((count, next)) => {
            let at = symbols.at;
            let chain = symbols.chain;
            let mut info = symbols.ranks;
            let mut ends = [0u16; Limits::BOOK];
            let table = Table {
                book,
                at: &at[..count],
                chain: &chain,
            };
            match read_tree_part(table, next, &mut info, &mut ends) {
                Ok(behind) => BookRead {
                    reading: Ok((count, behind)),
                    at,
                    info,
                    ends,
                },
                Err(r) => BookRead {
                    reading: Err(r),
                    at: [0u16; Limits::SYMBOLS],
                    info: [0u16; Limits::SYMBOLS],
                    ends: [0u16; Limits::BOOK],
                },
            }
        }
        Err(refusal) => BookRead {
            reading: Err(refusal),
            at: [0; Limits::SYMBOLS],
            info: [0; Limits::SYMBOLS],
            ends: [0; Limits::BOOK],
        },
    }
}

// The same as one Result: its arrays are copied once more.
pub fn read_book(book: &[u8]) -> Result<BookIndex, Refusal>
    ensures reading { reading_by (λ (index : BookIndex). (index.count, index.next)) result ≡ keeping (λ (x : Rules). length x.symbols) (read_book book.now) }
    ensures index { IfOk result (λ (index : BookIndex). (index.at ≡ at_after (read_book book.now)) × (index.info ≡ info_after (read_book book.now)) × (index.ends ≡ ends_after (read_book book.now))) }
{
    let read = index_book(book);
    let (count, next) = read.reading?;
    let at = read.at;
    let info = read.info;
    let ends = read.ends;
    Ok(BookIndex {
        count,
        next,
        at,
        info,
        ends,
    })
}

// How many rows of a book, its symbols and then its operations' trees, are read whole before the first fault, or the book's end.
pub fn rows_read(book: &[u8]) -> usize
    ensures { (result ≡ rows_read book.now) × (result ≤ most_symbols + most_symbols) }
{
    let symbols = symbol_rows(book);
    let reading = symbols.reading;
    let Ok((count, next)) = reading else {
        return symbols_read(book);
    };
    let at = symbols.at;
    let chain = symbols.chain;
    let table = Table {
        book,
        at: &at[..count],
        chain: &chain,
    };
    count + trees_read(table, next)
}
