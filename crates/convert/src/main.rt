// Reads a book from standard input, behind its two-byte length, converts it to version 2, and prints the result and the new book in hexadecimal.
#![tactic(auto)]

use converter::convert_book;
use limits::Limits;
use reading::{number, part_of};
use std::io;
use tables::{read_full, show_hex};

// The longest input: a book of 65,535 bytes behind its length.
const LONGEST: usize = 2 + 65535;

fn main(rt: HostRuntime) -> io::Result<()> {
    // One byte more than the longest input, so that bytes left over are seen.
    let mut input = [0u8; LONGEST + 1];
    let n = read_full(&mut rt.stdin(), &mut input)?;
    convert(&rt, &input[..n])
}

// Input that is cut short or has bytes left over prints only `J`.
fn convert(rt: &impl Print, input: &[u8]) -> io::Result<()> {
    let end = 2 + number(input, 0);
    if input.len() != end {
        return println!(rt; "J");
    }
    let mut room = [0u8; Limits::BOOK];
    match convert_book(part_of(input, 2, end), &mut room) {
        Ok(written) => {
            println!(rt; "R 0 0 {written}")?;
            show_hex(rt, part_of(&room, 0, written))
        }
        Err(refusal) => println!(rt; "R {refusal} 0"),
    }
}
