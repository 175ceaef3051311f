// What stands at a symbol of the book. `at` has the place of each symbol; a symbol that is not there reads as one at place 0.
ghost use Rattle.std.specs.Prelude.{◌≡◌, ◌+◌, ◌-◌, ◌<◌, ◌≤◌, eqb, get_or, length};
ghost use Rattle.symbols.specs.Symbols.{is_constructor_of};
ghost use Rattle.symbols.specs.Table.{symbol_in, arguments_of_a_byte};

use reading::{between, byte, part_of, wide_byte};

// The place of symbol f.
fn place_of(at: &[u16], f: usize) -> usize
    ensures { (result ≡ get_or at.now f 0) × (result < 65536) }
{
    usize::from(at.get(f).copied().unwrap_or(0))
}

pub fn is_operation(book: &[u8], at: &[u16], f: usize) -> bool
    ensures { result ≡ (symbol_in book.now (get_or at.now f 0)).is_operation }
{
    let p = place_of(at, f);
    byte(book, p + 1) == 1
}

pub fn sort_of(book: &[u8], at: &[u16], f: usize) -> u8
    ensures { result ≡ (symbol_in book.now (get_or at.now f 0)).sort }
{
    let p = place_of(at, f);
    byte(book, p + 2)
}

// The bytes of the argument sorts.
pub fn arguments_of<'a>(book: &'a [u8], at: &[u16], f: usize) -> &'a [u8]
    ensures { (result.now ≡ (symbol_in book.now (get_or at.now f 0)).arguments) × (length result.now ≤ arguments_of_a_byte) }
{
    let p = place_of(at, f);
    let from = p + 3;
    let count = between(2, wide_byte(book, p));
    part_of(book, from, from + count)
}

// How many arguments it takes.
pub fn arity_of(book: &[u8], at: &[u16], f: usize) -> usize
    ensures { (result ≡ length (symbol_in book.now (get_or at.now f 0)).arguments) × (result ≤ arguments_of_a_byte) }
{
    arguments_of(book, at, f).len()
}
