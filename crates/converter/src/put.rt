// Bytes put into a book that is made, as they stand.
ghost use Rattle.std.specs.Prelude.{◌≡◌, ◌*◌, ◌≤◌, length};
ghost use Rattle.std.proofs.lemmas.List.Edits.{sets};
ghost use Rattle.limits.specs.Sizes.{most_book_bytes};
ghost use Rattle.converter.specs.InCode.{furthest};

use writer::put::put_byte;

// Puts these bytes from q on.
pub(crate) fn put_part(from: &[u8], made: &mut [u8], q: usize)
    requires { (q ≤ 4 * furthest) × (length from.now ≤ most_book_bytes) }
    ensures { made.new ≡ sets made.old q from.now }
{
    for (i, b) in from.iter().enumerate() {
        put_byte(made, q + i, *b);
    }
}
