// Reads a table of books from standard input and converts each to version 2: it prints the label, what is handed back, and a checksum of the whole room.
// tools/convert_cases.py makes the table and says what each row gives.
#![tactic(auto)]

ghost use Rattle.std.specs.Prelude.{IfOk};
ghost use Rattle.tables.specs.Rows.{TakesSome};

use converter::convert_book;
use reading::{number, part_of};
use std::io;
use tables::{Fields, at_most, checksum_of, for_each_row, read_full};

// How long the room is, lent or not.
const BYTES: usize = 32800;

// Each program over a table has these three lines. One function for them would be called with the size and the closure all the same, and hide what is read.
fn main(rt: HostRuntime) -> io::Result<()> {
    let mut input = [0u8; 262144];
    let n = read_full(&mut rt.stdin(), &mut input)?;
    for_each_row(&input[..n], |row| show_row(&rt, row))
}

// One row: the room lent and the label behind it, and the book.
fn show_row(rt: &impl Print, row: &mut Fields<'_>) -> io::Result<()>
    ensures { IfOk result (λ done. TakesSome row.old row.new) }
{
    let lent = number(row.left, 2);
    let label = row.field();
    rt.write_all(part_of(label, 2, label.len()))?;
    show_conversion(rt, row.field(), lent)
}

fn show_conversion(rt: &impl Print, book: &[u8], lent: usize) -> io::Result<()> {
    let mut room = [170u8; BYTES];
    let length = at_most(lent, BYTES);
    let told = convert_book(book, &mut room[..length]);
    // of the whole room, lent or not
    let sum = checksum_of(&room);
    match told {
        Ok(written) => println!(rt; ": 0 0 {written}; bytes {sum}"),
        Err(refusal) => println!(rt; ": {refusal} 0; bytes {sum}"),
    }
}
