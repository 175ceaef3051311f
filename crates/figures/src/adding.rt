// Answer books read front to back, and their symbols added to the totals. What is refused leaves the totals as they were.
ghost use Rattle.std.specs.Prelude.{◌+◌, ◌*◌, ◌<◌, ◌≤◌, length};
ghost use Rattle.figures.specs.Figures.{symbols_added, answer_at, records_at, book_at, books_at};
ghost use Rattle.tallies.specs.InCode.{AddedAs};

use super::back::{books_back, records_back};
use super::record::{read_record, rising};
use reading::{number, part_of, wide_byte};
use tallies::{Fault, Refusal, take_back, tally};

// The symbols of a record at p, `count` of them, then its decisions; it ends at `end`.
fn add_symbols(
    books: &[u8],
    count: usize,
    from: usize,
    p: usize,
    end: usize,
    totals: &mut [u32],
) -> Result<usize, Refusal>
    requires { (from + 2 * count ≤ end) × (end ≤ length books.now) × (count < 65536) }
    ensures { AddedAs (symbols_added books.now totals.old count from p end) result
        totals.old totals.new }
{
    let symbols = part_of(books, from, books.len());
    if let Err(r) = tally(symbols, count as u16, totals) {
        return Err(r.fault.at(from + r.place));
    }
    let decisions = from + 2 * count;
    if !rising(books, (end - decisions) / 2, decisions) {
        take_back(symbols, count as u16, totals);
        return Err(Fault::Layout.at(p));
    }
    Ok(end)
}

// A record at p of a book that ends at e.
fn add_record(
    books: &[u8],
    version: usize,
    e: usize,
    p: usize,
    totals: &mut [u32],
) -> Result<usize, Refusal>
    requires { (p < e) × (e ≤ length books.now) × (0 < version) × (version ≤ 2) }
    ensures { AddedAs (answer_at books.now version e totals.old p) result totals.old totals.new }
{
    let end = read_record(books, version, e, p)?;
    let at = p + 2 * version;
    add_symbols(books, number(books, at), at + 2, p, end, totals)
}

// The records of a book from p to its end e. Each says where the next one stands, so the loop is no `for`, here and in `add_books`.
fn add_records(
    books: &[u8],
    version: usize,
    e: usize,
    from: usize,
    totals: &mut [u32],
) -> Result<usize, Refusal>
    requires { (from ≤ e) × (e ≤ length books.now) × (0 < version) × (version ≤ 2) }
    ensures { AddedAs (records_at books.now (length books.now) version e totals.old from) result
        totals.old totals.new }
{
    let mut p = from;
    while p < e {
        match add_record(books, version, e, p, totals) {
            Ok(next) => p = next,
            Err(r) => {
                records_back(books, version, p, from, totals);
                return Err(r);
            }
        }
    }
    Ok(p)
}

// A book at p, behind its four-byte length: the place behind it.
fn add_book(books: &[u8], p: usize, totals: &mut [u32]) -> Result<usize, Refusal>
    requires { p < length books.now }
    ensures { AddedAs (book_at books.now totals.old p) result totals.old totals.new }
{
    let size = books.len();
    if size - p < 4 {
        return Err(Fault::Layout.at(p));
    }
    let bytes = number(books, p) * 65536 + number(books, p + 2);
    if size - p - 4 < bytes {
        return Err(Fault::Layout.at(p));
    }
    if bytes == 0 {
        return Err(Fault::Layout.at(p));
    }
    let version = wide_byte(books, p + 4);
    if version == 0 {
        return Err(Fault::Layout.at(p + 4));
    }
    if 2 < version {
        return Err(Fault::Layout.at(p + 4));
    }
    add_records(books, version, p + 4 + bytes, p + 5, totals)
}

// All books: the place behind the last.
pub(crate) fn add_books(books: &[u8], totals: &mut [u32]) -> Result<usize, Refusal>
    ensures { AddedAs (books_at books.now (length books.now) totals.old 0) result
        totals.old totals.new }
{
    let mut p = 0;
    while p < books.len() {
        match add_book(books, p, totals) {
            Ok(next) => p = next,
            Err(r) => {
                books_back(books, p, totals);
                return Err(r);
            }
        }
    }
    Ok(p)
}
