// Reads a table of tagged listings from standard input and prints two lines for each: what the writer of books hands back, with a checksum of the whole
// room, and what is told when it is saved, with each number of the row that was written. tools/listing_cases.py makes the table and says what each row gives.
#![tactic(auto)]

ghost use Rattle.std.specs.Prelude.{IfOk};
ghost use Rattle.tables.specs.Rows.{TakesSome};

use circles::save_listing;
use listings::write_listing;
use std::io;
use tables::{Fields, at_most, checksum_of, for_each_row, read_full, show_item};

// How long each memory is.
const BYTES: usize = 33000;

const NUMBERS: usize = 400;

// What the row holds before.
const MARK: u16 = 43690;

// Each program over a table has these three lines. One function for them would be called with the size and the closure all the same, and hide what is read.
fn main(rt: HostRuntime) -> io::Result<()> {
    let mut input = [0u8; 262144];
    let n = read_full(&mut rt.stdin(), &mut input)?;
    for_each_row(&input[..n], |row| show_row(&rt, row))
}

// One row: how many bytes and numbers are lent, the listing's length in four bytes, and the listing.
fn show_row(rt: &impl Print, row: &mut Fields<'_>) -> io::Result<()>
    ensures { IfOk result (λ done. TakesSome row.old row.new) }
{
    let bytes = row.number();
    let numbers = row.number();
    let length = row.long_number();
    let listing = row.bytes(length as usize);
    show_book(rt, listing, bytes)?;
    show_saved(rt, listing, numbers)
}

fn show_book(rt: &impl Print, listing: &[u8], lent: usize) -> io::Result<()> {
    let mut room = [170u8; BYTES];
    let length = at_most(lent, BYTES);
    let written = write_listing(listing, &mut room[0..length]);
    // of the whole room, lent or not
    let sum = checksum_of(&room);
    match written {
        Ok(bytes) => println!(rt; "L 0 0 {bytes} {sum}"),
        Err(r) => println!(rt; "L {r} 0 {sum}"),
    }
}

fn show_saved(rt: &impl Print, listing: &[u8], lent: usize) -> io::Result<()> {
    let mut row = [MARK; NUMBERS];
    let length = at_most(lent, NUMBERS);
    match save_listing(listing, &mut row[0..length]) {
        Ok(s) => print!(rt; "O 0 0 {} {}:", s.headings, s.circle)?,
        Err(r) => print!(rt; "O {r} 0 0:")?,
    }
    // the numbers that are not as they were
    for n in row {
        if n != MARK {
            show_item(rt, n)?;
        }
    }
    rt.write_all(b"\n")
}
