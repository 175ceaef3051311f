// Books that were added to the totals, taken off again: they are known to be whole, so only their lengths, versions and counts are looked at.
// The bounds of `requires` keep places far from the last number; no caller comes near them.
ghost use Rattle.std.specs.Prelude.{◌≡◌, ◌<◌, ◌≤◌, length};
ghost use Rattle.figures.specs.Figures.{book_end};
ghost use Rattle.tallies.specs.InCode.{TakenBack};
ghost use Rattle.figures.specs.InCode.{behind_record, record_over, records_over, book_over, books_over};

use reading::{number, part_of, wide_byte};
use tallies::take_back;

// The record at p: the place behind it.
fn record_back(books: &[u8], version: usize, p: usize, totals: &mut [u32]) -> usize
    requires { (p ≤ 10000000000000000000) × (version ≤ 255) }
    ensures { (result ≡ behind_record books.now p)
        × TakenBack totals.old (record_over books.now version p) totals.new }
{
    let at = p + 2 * version;
    let symbols = part_of(books, at + 2, books.len());
    take_back(symbols, number(books, at) as u16, totals);
    p + 2 + number(books, p)
}

// The records from p to e. Each says where the next one stands, so the loop is no `for`, here and in `books_back`.
pub(crate) fn records_back(books: &[u8], version: usize, e: usize, from: usize, totals: &mut [u32])
    requires { (e ≤ 10000000000000000000) × (version ≤ 255) }
    ensures { TakenBack totals.old (records_over books.now version e from) totals.new }
{
    let mut p = from;
    while p < e {
        p = record_back(books, version, p, totals);
    }
}

// The book at p: the place behind it.
fn book_back(books: &[u8], p: usize, totals: &mut [u32]) -> usize
    requires { p < length books.now }
    ensures { (result ≡ book_end books.now p) × TakenBack totals.old (book_over books.now p) totals.new }
{
    let e = p + 4 + (number(books, p) * 65536 + number(books, p + 2));
    records_back(books, wide_byte(books, p + 4), e, p + 5, totals);
    e
}

// The books before e.
pub(crate) fn books_back(books: &[u8], e: usize, totals: &mut [u32])
    requires { e ≤ length books.now }
    ensures { TakenBack totals.old (books_over books.now e) totals.new }
{
    let mut p = 0;
    while p < e {
        p = book_back(books, p, totals);
    }
}
