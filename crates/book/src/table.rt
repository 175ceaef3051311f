// The symbols of a book, looked up by number: where each stands, and the constructors of each sort, chained.
ghost use Rattle.std.specs.Prelude.{◌≡◌, ◌<◌, ◌≤◌, get_or, length};
ghost use Rattle.limits.specs.Sizes.{most_book_bytes, most_symbols};
ghost use Rattle.symbols.specs.Table.{symbol_in, symbols_in, arguments_of_a_byte};
ghost use Rattle.book.specs.Reader.{Tabled, FewArguments, FewArguments-prop};

use symbol_part::Chain;
use symbols::table;

// `at` has the place of each symbol. What is known of the book and its table is said once, here.
#[derive(Clone, Copy)]
pub struct Table<'a> {
    pub book: &'a [u8],
    pub at: &'a [u16],
    pub chain: &'a Chain,
    ghost small: { length book.now ≤ most_book_bytes },
    ghost tabled: { Tabled book.now at.now chain.now.next chain.now.first },
    ghost few_arguments: { FewArguments (symbols_in book.now at.now) } by { FewArguments-prop (symbols_in book.now at.now) },
}

impl<'a> Table<'a> {
    pub(crate) fn is_operation(self, f: usize) -> bool
        ensures { result ≡ (symbol_in self.entry.book.now (get_or self.entry.at.now f 0)).is_operation }
    {
        table::is_operation(self.book, self.at, f)
    }

    pub(crate) fn sort_of(self, f: usize) -> u8
        ensures { result ≡ (symbol_in self.entry.book.now (get_or self.entry.at.now f 0)).sort }
    {
        table::sort_of(self.book, self.at, f)
    }

    // The bytes of the argument sorts.
    pub(crate) fn arguments_of(self, f: usize) -> &'a [u8]
        ensures { (result.now ≡ (symbol_in self.entry.book.now (get_or self.entry.at.now f 0)).arguments) × (length result.now ≤ arguments_of_a_byte) }
    {
        table::arguments_of(self.book, self.at, f)
    }

    // The first constructor of a sort, or the count of symbols.
    pub(crate) fn first_of(self, sort: u8) -> usize
        ensures { result ≡ get_or self.entry.chain.now.first sort 0 }
    {
        self.chain.first[sort as usize] as usize
    }

    // The constructor of the same sort behind symbol f, or the count of symbols.
    pub(crate) fn next_of(self, f: usize) -> usize
        requires { f < most_symbols }
        ensures { result ≡ get_or self.entry.chain.now.next f 0 }
    {
        self.chain.next[f] as usize
    }
}
