// Reads a table of rows from standard input and writes each as a book: it prints the label, what the writer hands back, and the bytes of the room lent
// after it. tools/writing_cases.py makes the table and says what each row gives.
#![tactic(auto)]

ghost use Rattle.std.specs.Prelude.{◌≤◌, IfOk};
ghost use Rattle.tables.specs.Rows.{TakesSome};

use reading::{number, part_of};
use std::io;
use tables::{Fields, at_most, checksum_of, for_each_row, read_full};
use writer::write_book;

// How long each memory is.
const NUMBERS: usize = 40000;

const BYTES: usize = 32800;

// Each program over a table has these three lines. One function for them would be called with the size and the closure all the same, and hide what is read.
fn main(rt: HostRuntime) -> io::Result<()> {
    let mut input = [0u8; 65536];
    let n = read_full(&mut rt.stdin(), &mut input)?;
    for_each_row(&input[..n], |row| show_row(&rt, row))
}

// One row: the room lent and the label behind it, and the numbers of its symbols and its trees.
fn show_row(rt: &impl Print, row: &mut Fields<'_>) -> io::Result<()>
    ensures { IfOk result (λ done. TakesSome row.old row.new) }
{
    let lent = number(row.left, 2);
    let label = row.field();
    rt.write_all(part_of(label, 2, label.len()))?;
    let symbols = row.field();
    let trees = row.field();
    show_writing(rt, lent, symbols, trees)
}

// Numbers one behind the other, no more than there is room for. There is no heap: an array of fixed size holds them, and is filled where it stands.
#[derive(Drop)]
struct Numbers {
    all: [u16; NUMBERS],
    count: usize,
    ghost within: { count ≤ 40000 },
}

impl Numbers {
    // Puts one number behind those that are there, if there is room.
    fn push(&mut self, n: u16) {
        if self.count < NUMBERS {
            self.all[self.count] = n;
            self.count += 1;
        }
    }

    // Puts the numbers of all blocks in these bytes, each block as often as it says.
    fn put_blocks(&mut self, bytes: &[u8]) {
        let mut blocks = Fields { left: bytes };
        while !blocks.left.is_empty() {
            let times = blocks.number();
            let count = blocks.number();
            let block = blocks.bytes(count.saturating_mul(2));
            for _ in 0..times {
                for n in block.chunks_exact(2) {
                    self.push(number(n, 0) as u16);
                }
            }
        }
    }

    // The numbers that were put.
    fn as_slice(&self) -> &[u16] {
        &self.all[..self.count]
    }
}

fn show_writing(rt: &impl Print, room: usize, symbols: &[u8], trees: &[u8]) -> io::Result<()> {
    let mut of_symbols = Numbers {
        all: [0; NUMBERS],
        count: 0,
    };
    of_symbols.put_blocks(symbols);
    let mut of_trees = Numbers {
        all: [0; NUMBERS],
        count: 0,
    };
    of_trees.put_blocks(trees);
    let lent = at_most(room, BYTES);
    let mut bytes = [170u8; BYTES];
    let told = write_book(
        of_symbols.as_slice(),
        of_trees.as_slice(),
        &mut bytes[..lent],
    );
    // of the whole room, lent or not
    let sum = checksum_of(&bytes);
    match told {
        Ok(written) => println!(rt; ": 0 0 {written}; bytes {sum}"),
        Err(refusal) => println!(rt; ": {refusal} 0; bytes {sum}"),
    }
}
