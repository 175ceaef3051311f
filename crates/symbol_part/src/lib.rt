// The symbol part of a book, read once: how many symbols it has, where each stands, and the chains of constructors.
#![tactic(auto)]

ghost use Rattle.std.specs.Prelude.{◌≡◌, ℕ, ◌+◌, ◌-◌, ◌<◌, ◌≤◌, length, get_or, IfOk};
ghost use Rattle.reading.specs.Reading.{got};
ghost use Rattle.symbol_part.specs.declared.SymbolPart.{SymbolPart};
ghost use Rattle.limits.specs.Sizes.{most_book_bytes, most_symbols, sorts_of_a_byte};
ghost use Rattle.reading.specs.Answer.{behind_of, reading_of, reading_by, keeping, nothing};
ghost use Rattle.symbols.specs.Symbols.{Symbols};
ghost use Rattle.symbols.specs.SymbolPart.{sorts_at, symbol_at, symbols_at, opened, symbol_part};
ghost use Rattle.symbols.specs.SymbolsRead.{symbols_read_at, symbols_read};
ghost use Rattle.symbols.specs.Table.{symbols_in, counted, PlacedAfter, ranks_from, nexts_from, firsts_from, in_array, places_after, ranks_after, nexts_after, firsts_after};

use limits::Limits;
use reading::{Asker, Fault, Reading, Refusal, byte, byte_at, length_at, wide_byte};
use symbols::table::{is_operation, sort_of};

// The constructors of each sort, chained: the number of the next one behind each symbol, and of the first of each sort. Where there is
// none it is the count of symbols.
#[derive(Clone, Copy)]
pub struct Chain {
    pub next: [u16; Limits::SYMBOLS],
    pub first: [u16; Limits::SORTS_OF_A_BYTE],
}

// The symbol part of a book as it was read: how many symbols there are and the place behind them, or the refusal; the place of each symbol;
// which of its sort's constructors each is; and the chains of constructors. After a refusal all arrays are zeros. They stand beside the
// reading, not in a Result, where they would be cleared and copied once more.
#[derive(Clone, Copy)]
pub struct SymbolRows {
    pub reading: Reading,
    pub at: [u16; Limits::SYMBOLS],
    pub ranks: [u16; Limits::SYMBOLS],
    pub chain: Chain,
}

// The symbol part of a book: how many symbols there are and the place behind them; the place of each symbol; which of its sort's
// constructors each is; and the chains of constructors.
#[derive(Clone, Copy)]
pub struct SymbolPart {
    pub count: usize,
    pub next: usize,
    pub at: [u16; Limits::SYMBOLS],
    pub ranks: [u16; Limits::SYMBOLS],
    pub chain: Chain,
}

// n argument sorts from p on: the place behind them.
fn read_sorts(s: &[u8], n: usize, p: usize) -> Result<usize, Refusal>
    requires { p + n ≤ length s.now }
    ensures { behind_of result ≡ keeping nothing (sorts_at s.now n p) }
{
    for q in p..p + n {
        if Limits::LAST_SORT < byte(s, q) {
            return Err(Fault::Symbol.at(Asker::Book, q));
        }
    }
    Ok(p + n)
}

// One symbol at p, with `before` symbols in front of it, in a part that ends at e: the place behind it.
fn read_symbol(s: &[u8], e: usize, before: usize, p: usize) -> Result<usize, Refusal>
    requires { (p < e) × (e ≤ length s.now) × (e ≤ most_book_bytes) }
    ensures { behind_of result ≡ keeping nothing (symbol_at s.now e before p) }
{
    let n = wide_byte(s, p);
    if e < p + 1 + n {
        return Err(Fault::Extent.at(Asker::Book, p));
    }
    if Limits::SYMBOLS <= before {
        return Err(Fault::Symbol.at(Asker::Book, p));
    }
    if n < 2 {
        return Err(Fault::Symbol.at(Asker::Book, p));
    }
    if 2 + Limits::ARGUMENTS < n {
        return Err(Fault::Symbol.at(Asker::Book, p));
    }
    if 1 < byte(s, p + 1) {
        return Err(Fault::Symbol.at(Asker::Book, p + 1));
    }
    if Limits::LAST_SORT < byte(s, p + 2) {
        return Err(Fault::Symbol.at(Asker::Book, p + 2));
    }
    read_sorts(s, n - 2, p + 3)
}

// Symbols from p to the part's end e, with `before` of them in front: how many there are then, and the place behind them.
fn read_symbols(
    s: &[u8],
    e: usize,
    before: usize,
    p: usize,
    at: &mut [u16; Limits::SYMBOLS],
) -> Reading
    requires { (e ≤ length s.now) × (e ≤ most_book_bytes) × (before ≤ most_symbols) }
    ensures { (bound : ℕ) → e - p ≤ bound → (reading_of result ≡ keeping (counted before) (symbols_at s.now bound e before p)) × PlacedAfter before p (symbols_at s.now bound e before p) at.old at.new }
{
    if e <= p {
        return Ok((before, p));
    }
    let next = read_symbol(s, e, before, p)?;
    at[before] = p as u16;
    read_symbols(s, e, before + 1, next, at)
}

// Size, version and length of the part: its end, and the place of its first symbol.
fn open_part(book: &[u8]) -> Reading
    ensures { reading_of result ≡ opened book.now }
{
    if Limits::BOOK < book.len() {
        return Err(Fault::Extent.at(Asker::Book, 0));
    }
    let (version, next) = byte_at(book, Asker::Book, book.len(), 0)?;
    if version == 0 {
        return Err(Fault::Version.at(Asker::Book, 0));
    }
    if 2 < version {
        return Err(Fault::Version.at(Asker::Book, 0));
    }
    let (e, q) = length_at(book, Asker::Book, book.len(), next)?;
    if q == e {
        return Err(Fault::Symbol.at(Asker::Book, next));
    }
    Ok((e, q))
}

// Which of its sort's constructors each symbol is; 0 for an operation.
fn ranks_of(book: &[u8], at: &[u16]) -> [u16; Limits::SYMBOLS]
    requires { length at.now ≤ most_symbols }
    ensures { result ≡ in_array (ranks_from (symbols_in book.now at.now) 0 (symbols_in book.now at.now)) }
{
    let mut ranks = [0u16; Limits::SYMBOLS];
    let mut seen = [0u16; Limits::SORTS_OF_A_BYTE];
    for f in 0..at.len() {
        if !is_operation(book, at, f) {
            let s = sort_of(book, at, f) as usize;
            ranks[f] = seen[s];
            seen[s] += 1;
        }
    }
    ranks
}

// Chains the constructors of each sort, from the last symbol to the first.
fn chain_of(book: &[u8], at: &[u16]) -> Chain
    requires { length at.now ≤ most_symbols }
    ensures { (result.next ≡ in_array (nexts_from (symbols_in book.now at.now) 0)) × (result.first ≡ firsts_from (symbols_in book.now at.now) sorts_of_a_byte 0) }
{
    let mut next = [0u16; Limits::SYMBOLS];
    let mut first = [at.len() as u16; Limits::SORTS_OF_A_BYTE];
    for f in (0..at.len()).rev() {
        let s = sort_of(book, at, f) as usize;
        next[f] = first[s];
        if !is_operation(book, at, f) {
            first[s] = f as u16;
        }
    }
    Chain { next, first }
}

// The rows of the symbols from q to the part's end e.
fn rows_of(book: &[u8], e: usize, q: usize) -> SymbolRows
    requires { got e q ≡ opened book.now }
    ensures { (reading_of result.reading ≡ keeping length (symbol_part book.now)) × (result.at ≡ places_after (symbol_part book.now)) × (result.ranks ≡ ranks_after (symbol_part book.now)) × (result.chain.next ≡ nexts_after (symbol_part book.now)) × (result.chain.first ≡ firsts_after (symbol_part book.now)) }
{
    let mut at = [0u16; Limits::SYMBOLS];
    match read_symbols(book, e, 0, q, &mut at) {
        Ok((count, next)) => {
            let places = &at[..count];
            let ranks = ranks_of(book, places);
            let chain = chain_of(book, places);
            SymbolRows {
                reading: Ok((count, next)),
                at,
                ranks,
                chain,
            }
        }
        Err(r) => {
            let chain = Chain {
                next: [0; Limits::SYMBOLS],
                first: [0; Limits::SORTS_OF_A_BYTE],
            };
            SymbolRows {
                reading: Err(r),
                at: [0u16; Limits::SYMBOLS],
                ranks: [0u16; Limits::SYMBOLS],
                chain,
            }
        }
    }
}

pub fn symbol_rows(book: &[u8]) -> SymbolRows
    ensures { (reading_of result.reading ≡ keeping length (symbol_part book.now)) × (result.at ≡ places_after (symbol_part book.now)) × (result.ranks ≡ ranks_after (symbol_part book.now)) × (result.chain.next ≡ nexts_after (symbol_part book.now)) × (result.chain.first ≡ firsts_after (symbol_part book.now)) }
{
    match open_part(book) {
        Ok((e, q)) => rows_of(book, e, q),
        Err(refusal) => {
            let chain = Chain {
                next: [0; Limits::SYMBOLS],
                first: [0; Limits::SORTS_OF_A_BYTE],
            };
            SymbolRows {
                reading: Err(refusal),
                at: [0; Limits::SYMBOLS],
                ranks: [0; Limits::SYMBOLS],
                chain,
            }
        }
    }
}

// The same in one Result, for a caller that minds no copy.
pub fn read_symbol_part(book: &[u8]) -> Result<SymbolPart, Refusal>
    ensures reading { reading_by (λ (part : SymbolPart). (part.count, part.next)) result ≡ keeping length (symbol_part book.now) }
    ensures arrays { IfOk result (λ (part : SymbolPart). (part.at ≡ places_after (symbol_part book.now)) × (part.ranks ≡ ranks_after (symbol_part book.now)) × (part.chain.next ≡ nexts_after (symbol_part book.now)) × (part.chain.first ≡ firsts_after (symbol_part book.now))) }
{
    let rows = symbol_rows(book);
    let (count, next) = rows.reading?;
    let at = rows.at;
    let ranks = rows.ranks;
    let chain = rows.chain;
    Ok(SymbolPart {
        count,
        next,
        at,
        ranks,
        chain,
    })
}

// The count of symbols read whole, with `before` of them in front of p: the reading stops at a fault or at the part's end e.
fn count_symbols(s: &[u8], e: usize, before: usize, p: usize) -> usize
    requires { (e ≤ length s.now) × (e ≤ most_book_bytes) × (before ≤ most_symbols) }
    ensures { ((bound : ℕ) → e - p ≤ bound → result ≡ before + symbols_read_at s.now bound e before p) × (result ≤ most_symbols) }
{
    if e <= p {
        return before;
    }
    match read_symbol(s, e, before, p) {
        Ok(next) => count_symbols(s, e, before + 1, next),
        Err(_) => before,
    }
}

// How many symbols of a book are read whole before the first fault, or the part's end.
pub fn symbols_read(book: &[u8]) -> usize
    ensures { (result ≡ symbols_read book.now) × (result ≤ most_symbols) }
{
    match open_part(book) {
        Ok((e, q)) => count_symbols(book, e, 0, q),
        Err(_) => 0,
    }
}
