// Request L9: a version 1 book written as version 2, with a rule to fail in the place of each exempt. The bytes are made in memory of its own, so that what is
// refused leaves the room lent as it was.
#![tactic(auto)]

ghost use Rattle.std.specs.Prelude.{◌≡◌};
ghost use Rattle.converter.specs.Convert.{laid, convert};
ghost use Rattle.converter.specs.Scan.{scanned};
ghost use Rattle.converter.specs.InCode.{after, number_of, place_of};
ghost use Rattle.converter.specs.declared.Refusal.TheVariants.{Unread};

mod made;
mod put;

use book::index_book;
use limits::Limits;
use made::Old;
use reading::{Asker, Fault, byte};
use std::fmt;

// Why no book was converted.
#[derive(Clone, Copy, Debug, PartialEq, Eq)]
pub enum Refusal {
    // The old book is not read, or is one of version 2.
    Unread(reading::Refusal),
    // The new book is longer than any book, or than the room lent.
    NoRoom,
}

impl From<reading::Refusal> for Refusal {
    ghost from_gives = { λ refusal result. result ≡ Unread refusal };

    fn from(refusal: reading::Refusal) -> Refusal {
        Refusal::Unread(refusal)
    }
}

impl Refusal {
    // Its number in document 01.
    pub fn number(self) -> u8
        ensures { result ≡ number_of self }
    {
        match self {
            Refusal::Unread(refusal) => refusal.number(),
            Refusal::NoRoom => 52,
        }
    }

    // Its place in the old book, 0 where it has none.
    pub fn place(self) -> usize
        ensures { result ≡ place_of self }
    {
        match self {
            Refusal::Unread(refusal) => refusal.place,
            Refusal::NoRoom => 0,
        }
    }
}

// As the programs print it: its number and its place.
impl fmt::Display for Refusal {
    fn fmt<W: fmt::Write>(&self, f: &mut fmt::Formatter<W>) -> fmt::Result {
        write!(f, "{} {}", self.number(), self.place())
    }
}

// Lays the new book of an admitted one into the room lent, if it has its size and there is room for all of it: how many bytes it has.
fn lay(old: Old, room: &mut [u8]) -> Result<usize, Refusal>
    ensures { after result room.new ≡ laid (scanned old.entry.book.now old.entry.ends.now) room.old }
{
    let made = old.converted();
    let size = made.size;
    if Limits::BOOK < size {
        return Err(Refusal::NoRoom);
    }
    if room.len() < size {
        return Err(Refusal::NoRoom);
    }
    room[..size].copy_from_slice(&made.bytes[..size]);
    Ok(size)
}

// Writes an admitted version 1 book as version 2 into the room lent, from its first byte on: how many bytes it has.
pub fn convert_book(book: &[u8], room: &mut [u8]) -> Result<usize, Refusal>
    ensures { after result room.new ≡ convert book.now room.old }
{
    if Limits::BOOK < book.len() {
        return Err(Refusal::Unread(Fault::Extent.at(Asker::Book, 0)));
    }
    if byte(book, 0) == 2 {
        return Err(Refusal::Unread(Fault::Version.at(Asker::Book, 0)));
    }
    let index = index_book(book);
    index.reading?;
    let ends = index.ends;
    lay(Old { book, ends: &ends }, room)
}
