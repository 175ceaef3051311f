// The new book made from the old one. In an item the trees stand in preorder, so one way through its bytes meets every exempt: behind an exempt stands the
// next tree, behind a rule too, at the end that the reader noted, and behind a branch's variable its first tree.
ghost use Rattle.std.specs.Prelude.{◌≡◌, ◌+◌, ◌*◌, ◌<◌, ◌≤◌, length, get_or, replicate};
ghost use Rattle.limits.specs.Sizes.{most_book_bytes};
ghost use Rattle.converter.specs.Scan.{spots, item_to, items, front, scanned};
ghost use Rattle.converter.specs.InCode.{furthest, SpotPut, Put, PutBehind, MadeOf};

use super::put::put_part;
use expressions::Code;
use limits::Limits;
use reading::{byte, number, part_of};
use writer::put::{put_byte, put_two};

// An old book as its reader left it: its bytes, and the end that was noted for each tree.
#[derive(Clone, Copy)]
pub(crate) struct Old<'a> {
    pub book: &'a [u8],
    pub ends: &'a [u16],
    ghost small: { length book.now ≤ most_book_bytes },
}

// A new book: how many bytes it has, and its bytes if they are not more than a book has. There is no heap, so an array of a book's size holds them.
#[derive(Clone, Copy)]
pub struct Made {
    pub size: usize,
    pub bytes: [u8; Limits::BOOK],
}

impl Old<'_> {
    // The end that the reader noted for the tree at p.
    fn end_of(self, p: usize) -> usize
        ensures { result ≡ get_or self.entry.ends.now p 0 }
    {
        self.ends.get(p).copied().unwrap_or(0) as usize
    }

    // Puts what opens at p, up to the next tree's code, and tells its place: a rule to fail for an exempt, a rule as it stands, a branch's code and variable.
    fn put_spot(self, p: usize, made: &mut Made) -> usize
        requires { (p ≤ furthest) × (made.old.size ≤ 2 * furthest) }
        ensures { SpotPut self.entry.book.now self.entry.ends.now p made.old result made.new }
    {
        match byte(self.book, p) {
            0 => {
                put_byte(&mut made.bytes, made.size, 1);
                put_byte(&mut made.bytes, made.size + 1, Code::Fail as u8);
                made.size += 2;
                p + 1
            }
            1 => {
                let rule = part_of(self.book, p + 1, self.end_of(p));
                put_byte(&mut made.bytes, made.size, 1);
                made.size += 1;
                put_part(rule, &mut made.bytes, made.size);
                made.size += rule.len();
                p + 1 + rule.len()
            }
            _ => {
                put_byte(&mut made.bytes, made.size, 2);
                put_byte(&mut made.bytes, made.size + 1, byte(self.book, p + 1));
                made.size += 2;
                p + 2
            }
        }
    }

    // Puts the trees from p to e.
    fn put_spots(self, e: usize, p: usize, made: &mut Made)
        requires { (p ≤ e) × (e ≤ 4 * most_book_bytes) × (made.old.size ≤ furthest + 2) }
        ensures { PutBehind (spots self.entry.book.now self.entry.ends.now e p) made.old (made.old.size + 9 * most_book_bytes) made.new }
    {
        let mut at = p;
        // The next place comes from the bytes, so this is no `for`.
        while at < e {
            at = self.put_spot(at, made);
        }
    }

    // Puts the tree whose length stands at p, behind its own length.
    fn put_item(self, e: usize, p: usize, made: &mut Made)
        requires { (p + 2 ≤ e) × (e ≤ 4 * most_book_bytes) × (made.old.size ≤ furthest) }
        ensures { PutBehind (item_to self.entry.book.now self.entry.ends.now e p) made.old (made.old.size + 10 * most_book_bytes) made.new }
    {
        let q = made.size;
        made.size += 2;
        self.put_spots(e, p + 2, made);
        let length = made.size - (q + 2);
        put_two(&mut made.bytes, q, length);
    }

    // Puts the trees whose lengths stand from p on.
    fn put_items(self, p: usize, made: &mut Made)
        requires { (p ≤ 4 * most_book_bytes) × (made.old.size ≤ 2 * most_book_bytes) }
        ensures { PutBehind (items self.entry.book.now self.entry.ends.now p) made.old furthest made.new }
    {
        let mut at = p;
        // The next place comes from the length that stands here, so this is no `for`.
        while at < self.book.len() {
            let e = at + 2 + number(self.book, at);
            self.put_item(e, at, made);
            at = e;
        }
    }

    // The version byte, and the symbol part as it stands.
    fn front(self) -> Made
        ensures { Put (front self.entry.book.now) (replicate most_book_bytes 0) 0 (2 + most_book_bytes) result.size result.bytes }
    {
        let part = part_of(self.book, 1, 3 + number(self.book, 1));
        let mut bytes = [0u8; Limits::BOOK];
        put_byte(&mut bytes, 0, 2);
        put_part(part, &mut bytes, 1);
        Made {
            size: 1 + part.len(),
            bytes,
        }
    }

    // The new book of an admitted one, with the ends that the reader noted.
    pub(crate) fn converted(self) -> Made
        ensures { MadeOf (scanned self.entry.book.now self.entry.ends.now) result }
    {
        let mut made = self.front();
        let q = made.size;
        made.size += 2;
        self.put_items(3 + number(self.book, 1) + 2, &mut made);
        let trees = made.size - (q + 2);
        put_two(&mut made.bytes, q, trees);
        made
    }
}
