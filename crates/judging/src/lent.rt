// What is judged: a book by its table of symbols, and the first `used` of the nodes that are lent.
ghost use Rattle.std.specs.Prelude.{◌≤◌};
ghost use Rattle.limits.specs.Sizes.{most_nodes};

#[derive(Clone, Copy)]
pub struct Judged<'a> {
    pub book: &'a [u8],
    pub table: &'a [u16],
    pub nodes: &'a [u16],
    pub used: usize,
    ghost few: { used ≤ most_nodes },
}
