// The bytes of a book made from its rows, and judged as any book is.
ghost use Rattle.std.specs.Prelude.{◌++◌, map, ◌≡◌, ◌+◌, ◌≤◌, length, take, replicate};
ghost use Rattle.std.proofs.lemmas.List.Edits.{sets};
ghost use Rattle.limits.specs.Sizes.{most_book_bytes, most_symbols};
ghost use Rattle.symbols.specs.Table.{symbols_in, in_array};
ghost use Rattle.writer.specs.Layout.{byte_of, arities_of, front_bytes, tree_part_bytes};
ghost use Rattle.writer.specs.Write.{judged, made_of};
ghost use Rattle.writer.specs.InCode.{writing_by, Within, Put};

use super::Refusal;
use super::put::{put_byte, put_two};
use super::rows::count_rows;
use super::trees::byte_of;
use book::{index_book, rows_read};
use limits::Limits;
use symbol_part::symbol_rows;
use symbols::table::arity_of;

// A book that is made: how many bytes were put, and those that an array as long as the longest book holds. There is no heap.
#[derive(Clone, Copy)]
pub struct Made {
    pub size: usize,
    pub bytes: [u8; Limits::BOOK],
}

impl Made {
    // Puts the numbers of the symbols' rows.
    fn put_rows(&mut self, rows: &[u16])
        requires { (self.old.size ≤ most_book_bytes) × (length rows.now ≤ most_book_bytes) }
        ensures { Put (map byte_of rows.now) self.old self.new }
    {
        for n in rows {
            put_byte(&mut self.bytes, self.size, byte_of(*n));
            self.size += 1;
        }
    }
}

// The version byte and the symbol part.
fn front_of(rows: &[u16]) -> Made
    requires { length rows.now ≤ most_book_bytes }
    ensures { (result.size ≡ 3 + length rows.now) × (result.bytes ≡ sets (replicate most_book_bytes 0) 0 (front_bytes rows.now)) }
{
    let mut made = Made {
        size: 3,
        bytes: [0; Limits::BOOK],
    };
    put_byte(&mut made.bytes, 0, 1);
    put_two(&mut made.bytes, 1, rows.len());
    made.put_rows(rows);
    made
}

// How many arguments each symbol takes.
fn arities_of(book: &[u8], at: &[u16]) -> [u8; Limits::SYMBOLS]
    requires { length at.now ≤ most_symbols }
    ensures { result ≡ in_array (arities_of (symbols_in book.now at.now)) }
{
    let mut arities = [0u8; Limits::SYMBOLS];
    for f in 0..at.len() {
        arities[f] = arity_of(book, at, f) as u8;
    }
    arities
}

// The book, whose front was made and whose symbols take so many arguments, with its trees. `count` is the count of rows.
fn with_trees(mut made: Made, arities: &[u8], trees: &[u16], count: usize) -> Result<Made, Refusal>
    requires { made.size ≤ most_book_bytes }
    ensures { (writing_by result ≡ judged count (take made.size made.bytes ++ tree_part_bytes arities.now trees.now)) × Within result }
{
    if Limits::BOOK < trees.len() {
        return Err(Refusal::NotABook { row: count });
    }
    made.put_trees(arities, trees);
    let size = made.size;
    if Limits::BOOK < size {
        return Err(Refusal::NotABook { row: count });
    }
    let index = index_book(&made.bytes[..size]);
    let reading = index.reading;
    match reading {
        Ok(_) => Ok(made),
        Err(_) => Err(Refusal::NotABook {
            row: rows_read(&made.bytes[..size]),
        }),
    }
}

// The book whose symbols and trees have these rows.
pub(crate) fn made_of(symbols: &[u16], trees: &[u16]) -> Result<Made, Refusal>
    ensures { (writing_by result ≡ made_of (record { symbols = symbols.entry.now; trees = trees.now })) × Within result }
{
    let count = count_rows(symbols) + count_rows(trees);
    if Limits::BOOK < 3 + symbols.len() {
        return Err(Refusal::NotABook { row: count });
    }
    let made = front_of(symbols);
    let front = made.size;
    let part = symbol_rows(&made.bytes[..front]);
    let reading = part.reading;
    match reading {
        Ok((many, _)) => {
            let at = part.at;
            let arities = arities_of(&made.bytes[..front], &at[..many]);
            with_trees(made, &arities[..many], trees, count)
        }
        Err(_) => Err(Refusal::NotABook {
            row: rows_read(&made.bytes[..front]),
        }),
    }
}
