// Bytes put into a book that is made. What would stand past the end changes nothing, so a book's size is judged once, when all is put.
ghost use Rattle.std.specs.Prelude.{[], ◌∷◌, ◌≡◌, ◌/◌, ◌%◌, ◌<◌, set};
ghost use Rattle.std.proofs.lemmas.List.Edits.{sets};
ghost use Rattle.reading.specs.Bytes.{two_bytes};

// Puts a byte at p.
pub fn put_byte(book: &mut [u8], p: usize, b: u8)
    ensures { book.new ≡ set book.old p b }
{
    // Tried: `get_mut`, but where it finds no place it tells nothing of the bytes.
    if p < book.len() {
        book[p] = b;
    }
}

// Puts a number of two bytes at p.
pub fn put_two(book: &mut [u8], p: usize, n: usize)
    ensures bytes { book.new ≡ sets book.old p (n / 256 % 256 ∷ n % 256 ∷ []) }
    ensures number { n < 65536 → book.new ≡ sets book.old p (two_bytes n) }
{
    if p < book.len() {
        put_byte(book, p, (n / 256 % 256) as u8);
        put_byte(book, p + 1, (n % 256) as u8);
    }
}
