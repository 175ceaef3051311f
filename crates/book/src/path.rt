// The variables bound on a path of a tree.
ghost use Rattle.std.specs.Prelude.{true, false, ◌++◌, ◌≡◌, ◌+◌, ◌<◌, ◌≤◌, length, replicate, set};
ghost use Rattle.limits.specs.Sizes.{most_variables};

use limits::Limits;

// Their sorts, and which of them were branched on. There is no heap: the sorts of the first `bound` variables stand in an array of all.
#[derive(Clone, Copy)]
pub struct Path {
    pub sorts: [u8; Limits::VARIABLES],
    pub bound: usize,
    pub done: [bool; Limits::VARIABLES],
    ghost in_range: { bound ≤ most_variables },
}

impl Path {
    ghost use Rattle.book.specs.Reader.{vars_of};

    pub(crate) fn empty() -> Path
        ensures { (result.bound ≡ 0) × (result.done ≡ replicate most_variables false) }
    {
        Path {
            sorts: [0; Limits::VARIABLES],
            bound: 0,
            done: [false; Limits::VARIABLES],
        }
    }

    // The same path, behind a branch on variable x.
    pub(crate) fn branched(mut self, x: usize) -> Path
        requires { x < most_variables }
        ensures { (result.sorts ≡ self.sorts) × (result.bound ≡ self.bound) × (result.done ≡ set self.done x true) }
    {
        self.done[x] = true;
        self
    }

    // The same path, with variables of these sorts bound next.
    pub(crate) fn binding(mut self, sorts: &[u8]) -> Path
        requires { self.bound + length sorts.now ≤ most_variables }
        ensures { (vars_of result ≡ vars_of self ++ sorts.now) × (result.bound ≡ self.bound + length sorts.now) × (result.done ≡ self.done) }
    {
        let first = self.bound;
        let end = first + sorts.len();
        self.sorts[first..end].copy_from_slice(sorts);
        self.bound = end;
        self
    }
}
