// What programs over tables of cases share: how the input is read, the fields of a row, checksums of memory, and how numbers and bytes are printed.
#![tactic(auto)]

ghost use Rattle.std.specs.Prelude.{◌≡◌, ◌+◌, ◌-◌, ◌*◌, ◌%◌, ◌<◌, ◌≤◌, min, length, take, drop, IfOk};
ghost use Rattle.std.specs.Io.KnownBytes.{Consumes, IsAtEnd};
ghost use Rattle.reading.specs.Bytes.{big_endian};
ghost use Rattle.tables.specs.Checksum.{mixing, checksum, ChecksumBy};
ghost use Rattle.tables.specs.Rows.{TakesSome};

use reading::number;
use std::io::Read;
use std::{fmt, io};

// Reads until the buffer is full or the input ends: how many bytes there are. They are the next bytes of the input, and only at its end are there fewer than
// the buffer holds.
pub fn read_full<R: Read>(reader: &mut R, buffer: &mut [u8]) -> io::Result<usize>
    ensures within { IfOk result (λ n. n ≤ length buffer.new) }
    ensures bytes { IfOk result (λ n. Consumes (R.remaining reader.old) (R.remaining reader.new) (take n buffer.new)) }
    ensures end { IfOk result (λ n. n < length buffer.new → IsAtEnd (R.remaining reader.new)) }
{
    // The next place is where the last read ended, so this is no `for`.
    let mut filled: usize = 0;
    while filled < buffer.len() {
        let n = reader.read(&mut buffer[filled..])?;
        if n == 0 {
            return Ok(filled);
        }
        filled += n;
    }
    Ok(filled)
}

// What is left of a table's input, taken from the front. A field is a two-byte length, then what it counts; what is not there is empty, or reads as 0.
#[derive(Clone, Copy)]
pub struct Fields<'a> {
    pub left: &'a [u8],
}

impl<'a> Fields<'a> {
    // The first n bytes, or all that are left.
    pub fn bytes(&mut self, n: usize) -> &'a [u8]
        ensures first { result.now ≡ take n self.old.left.now }
        ensures rest { self.new.left.now ≡ drop n self.old.left.now }
        ensures fewer { length self.new.left.now ≤ length self.old.left.now - n }
    {
        let (first, rest) = self.left.split_at(n.min(self.left.len()));
        self.left = rest;
        first
    }

    // The field that comes first, behind its length.
    pub fn field(&mut self) -> &'a [u8]
        ensures first { result.now ≡ drop 2 (take (2 + big_endian self.old.left.now 0) self.old.left.now) }
        ensures rest { self.new.left.now ≡ drop (2 + big_endian self.old.left.now 0) self.old.left.now }
        ensures some { TakesSome self.old self.new }
    {
        let field = self.bytes(2 + number(self.left, 0));
        &field[field.len().min(2)..]
    }

    // The number in the first two bytes.
    pub fn number(&mut self) -> usize
        ensures first { result ≡ big_endian self.old.left.now 0 }
        ensures rest { self.new.left.now ≡ drop 2 self.old.left.now }
        ensures some { TakesSome self.old self.new }
    {
        let n = number(self.left, 0);
        self.bytes(2);
        n
    }

    // The number in the first four bytes.
    pub fn long_number(&mut self) -> u32
        ensures first { result ≡ big_endian self.old.left.now 0 * 65536 + big_endian self.old.left.now 2 }
        ensures rest { self.new.left.now ≡ drop 4 self.old.left.now }
        ensures some { TakesSome self.old self.new }
    {
        let n = number(self.left, 0) * 65536 + number(self.left, 2);
        self.bytes(4);
        n as u32
    }
}

// Shows the rows of a table, one behind the other. Each takes a byte at least, so there are no more rows than bytes.
pub fn for_each_row<F: FnMut(&mut Fields<'_>) -> io::Result<()>>(
    input: &[u8],
    mut show_row: F,
) -> io::Result<()>
    requires { F.IsAlwaysCallable show_row }
{
    let mut fields = Fields { left: input };
    for _ in 0..input.len() {
        if fields.left.is_empty() {
            break;
        }
        show_row(&mut fields)?;
    }
    Ok(())
}

// The place behind the field at p: a two-byte length, then what it counts; no further than the input goes.
pub fn behind(input: &[u8], p: usize) -> usize
    ensures { result ≡ min (length input.now) (p + 2 + big_endian input.now p) }
{
    p.saturating_add(2 + number(input, p)).min(input.len())
}

// No more than so many.
pub fn at_most(n: usize, most: usize) -> usize
    ensures { result ≡ min most n }
{
    n.min(most)
}

// A checksum with one number more in it.
pub fn mixed(sum: u32, v: u32) -> u32
    ensures { result ≡ mixing sum v }
{
    sum.wrapping_mul(31).wrapping_add(v)
}

// The checksum of numbers of at most 32 bits. What it says at bytes, at 16-bit and at 32-bit numbers: specs/Checksum.antt, `at_numbers`.
pub fn checksum_of<T: Copy + Into<u32>>(numbers: &[T]) -> u32
    ensures { ChecksumBy T.converts 0 numbers.now result }
{
    numbers.iter().fold(0, |sum, v| mixed(sum, (*v).into()))
}

// A number behind what stands before it in its line.
pub fn show_item(rt: &impl Print, n: impl fmt::Display + Drop) -> io::Result<()> {
    print!(rt; " {n}")
}

// Bytes in hexadecimal, 32 to a line.
pub fn show_hex(rt: &impl Print, bytes: &[u8]) -> io::Result<()> {
    for line in bytes.chunks(32) {
        show_hex_line(rt, line)?;
    }
    Ok(())
}

// Two digits for each byte, up to 32 of them. They are laid by hand: with a formatted `{b:02x}` for each, `convert` took two to three times the instructions.
fn show_hex_line(rt: &impl Print, bytes: &[u8]) -> io::Result<()> {
    // A newline stands behind the digits, as in all that holds none.
    let mut line = [b'\n'; 65];
    for (i, b) in bytes.iter().take(32).enumerate() {
        line[2 * i] = digit(*b / 16);
        line[2 * i + 1] = digit(*b % 16);
    }
    rt.write_all(&line[..2 * bytes.len().min(32) + 1])
}

fn digit(d: u8) -> u8 {
    if d < 10 { b'0' + d } else { b'a' - 10 + d % 16 }
}

// At the numbers that a memory holds the checksum is that of the numbers themselves.
#[cfg(test)]
mod tests {
    use super::*;
    use std::test::Fail;

    fn of_bytes(bytes: &[u8]) -> u32
        ensures { result ≡ checksum 0 bytes.now }
    {
        checksum_of(bytes)
    }

    fn of_numbers(numbers: &[u16]) -> u32
        ensures { result ≡ checksum 0 numbers.now }
    {
        checksum_of(numbers)
    }

    fn of_totals(totals: &[u32]) -> u32
        ensures { result ≡ checksum 0 totals.now }
    {
        checksum_of(totals)
    }

    // 1 * 31 * 31 + 2 * 31 + 3
    #[test]
    fn numbers_of_each_size(rt: HostRuntime) -> Result<(), Fail> {
        assert_eq!(rt; of_bytes(&[1, 2, 3]), 1026);
        assert_eq!(rt; of_numbers(&[1, 2, 3]), 1026);
        assert_eq!(rt; of_totals(&[1, 2, 3]), 1026);
        Ok(())
    }
}
