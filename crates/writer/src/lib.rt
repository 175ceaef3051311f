// The book writer: rows of numbers from the editors' desk in, the bytes of a book out, or a refusal. The bytes are made in memory of its own and judged as
// any book is, so that what is refused leaves the room lent as it was.
#![tactic(auto)]

ghost use Rattle.std.specs.Prelude.{◌≡◌};
ghost use Rattle.writer.specs.Write.{write};
ghost use Rattle.writer.specs.InCode.{after, number_of, row_of};

mod made;
pub mod put;
mod rows;
mod trees;

use made::made_of;
use std::fmt;

// Why no book was written.
#[derive(Clone, Copy, Debug, PartialEq, Eq)]
pub enum Refusal {
    // The rows are no book's, and this is the first at fault: the count of rows if some are missing or the book is too large.
    NotABook { row: usize },
    // The room lent is shorter than the book.
    NoRoom,
}

impl Refusal {
    // Its number, as request L1 has it.
    pub fn number(self) -> u8
        ensures { result ≡ number_of self }
    {
        match self {
            Refusal::NotABook { row: _ } => 50,
            Refusal::NoRoom => 51,
        }
    }

    // The row at fault, 0 where none is.
    pub fn row(self) -> usize
        ensures { result ≡ row_of self }
    {
        match self {
            Refusal::NotABook { row } => row,
            Refusal::NoRoom => 0,
        }
    }
}

// As the programs print it: its number and the row at fault.
impl fmt::Display for Refusal {
    fn fmt<W: fmt::Write>(&self, f: &mut fmt::Formatter<W>) -> fmt::Result {
        write!(f, "{} {}", self.number(), self.row())
    }
}

// Writes the book whose symbols and trees have these rows into the room lent, from its first byte on: how many bytes it has.
pub fn write_book(symbols: &[u16], trees: &[u16], room: &mut [u8]) -> Result<usize, Refusal>
    ensures { after result room.new ≡ write (record { symbols = symbols.entry.now; trees = trees.now }) room.old }
{
    let made = made_of(symbols, trees)?;
    let size = made.size;
    if room.len() < size {
        return Err(Refusal::NoRoom);
    }
    room[..size].copy_from_slice(&made.bytes[..size]);
    Ok(size)
}
