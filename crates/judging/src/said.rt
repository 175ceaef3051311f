// Which sorts the applies have that are met from a node, as far as is said.
ghost use Rattle.std.specs.Prelude.{◌≡◌};
ghost use Rattle.judging.specs.Sorts.{joined, unfit};

#[derive(Clone, Copy, Debug, PartialEq, Eq)]
pub enum Said {
    // None is met.
    Nothing,
    // One of this sort is met, and none of another.
    One(u8),
    // Some of several sorts are met.
    Several,
}

impl Said {
    // What two of them say together.
    #[tactic(auto, unfolding(crate::specs::Sorts::joined))]
    pub fn joined(self, other: Said) -> Said
        ensures { result ≡ joined self other }
    {
        match (self, other) {
            (Said::Nothing, _) => other,
            (_, Said::Nothing) => self,
            (Said::One(s), Said::One(t)) if s == t => self,
            _ => Said::Several,
        }
    }

    // Whether one of another sort than s is said to be met.
    #[tactic(auto, unfolding(crate::specs::Sorts::unfit))]
    pub fn is_unfit(self, s: u8) -> bool
        ensures { result ≡ unfit self s }
    {
        match self {
            Said::Nothing => false,
            Said::One(t) => t != s,
            Said::Several => true,
        }
    }
}
