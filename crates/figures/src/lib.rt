// The index figures of the yearly report: in how many answers each symbol stands, over many answer books laid one behind another.
#![tactic(auto)]

ghost use Rattle.std.specs.Prelude.{◌≡◌};
ghost use Rattle.figures.specs.Figures.{figures};
ghost use Rattle.figures.specs.InCode.{after};

mod adding;
mod back;
mod record;

use adding::add_books;
pub use tallies::{Fault, Refusal};

// Adds the figures of all books to the totals. A refusal leaves the totals as they were.
pub fn add_figures(books: &[u8], totals: &mut [u32]) -> Result<(), Refusal>
    ensures { after result totals.new ≡ figures books.now totals.old }
{
    add_books(books, totals)?;
    Ok(())
}
