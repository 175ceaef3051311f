// Reads one tagged listing from standard input and prints what comes of it: a line `R number line bytes`, then the book in hexadecimal.
#![tactic(auto)]

use limits::Limits;
use listings::write_listing;
use reading::part_of;
use std::io;
use tables::{read_full, show_hex};

// The longest listing that is read; of a longer one only `J` is printed.
const LONGEST: usize = 262143;

fn main(rt: HostRuntime) -> io::Result<()> {
    // One byte more than the longest listing, so that a longer one is seen.
    let mut input = [0u8; LONGEST + 1];
    let n = read_full(&mut rt.stdin(), &mut input)?;
    show_book(&rt, &input[..n])
}

fn show_book(rt: &impl Print, listing: &[u8]) -> io::Result<()> {
    if LONGEST < listing.len() {
        return println!(rt; "J");
    }
    let mut room = [0u8; Limits::BOOK];
    match write_listing(listing, &mut room) {
        Ok(bytes) => {
            println!(rt; "R 0 0 {bytes}")?;
            show_hex(rt, first(&room, bytes))
        }
        Err(r) => println!(rt; "R {r} 0"),
    }
}

// The first so many bytes: of the whole array, whose length needs no proof here.
fn first(room: &[u8; Limits::BOOK], n: usize) -> &[u8] {
    part_of(room, 0, n)
}
