// Reads a book, a question and a fuel from standard input, runs them once, and prints the answers and the result.
#![tactic(auto)]

use lines::expand;
use std::io;
use tables::read_full;

// The longest input: a book and a question of 65,535 bytes each, behind their lengths, and the fuel.
const LONGEST: usize = 2 + 65535 + 2 + 65535 + 4;

fn main(rt: HostRuntime) -> io::Result<()> {
    // One byte more than the longest input, so that bytes left over are seen.
    let mut input = [0u8; LONGEST + 1];
    let n = read_full(&mut rt.stdin(), &mut input)?;
    expand(&rt, &input[..n])
}
