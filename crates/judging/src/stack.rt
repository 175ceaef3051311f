// A stack of node numbers, of fixed size; a node for which there is no room is left out.
ghost use Rattle.std.specs.Prelude.{◌≡◌, ◌+◌, ◌<◌, ◌≤◌, MatchOption, get_or, replicate, set};

#[derive(Drop)]
pub struct Stack<const N: usize> {
    pub nodes: [u16; N],
    pub height: usize,
    ghost inside: { height ≤ N },
}

impl<const N: usize> Stack<N> {
    pub fn new() -> Stack<N>
        ensures { (result.height ≡ 0) × (result.nodes ≡ replicate N 0) }
    {
        Stack {
            nodes: [0; N],
            height: 0,
        }
    }

    pub fn push(&mut self, n: u16)
        ensures { self.old.height < N → (self.new.nodes ≡ set self.old.nodes self.old.height n) × (self.new.height ≡ self.old.height + 1) }
    {
        if self.height < N {
            self.nodes[self.height] = n;
            self.height += 1;
        }
    }

    pub fn pop(&mut self) -> Option<u16>
        ensures last { MatchOption result (self.old.height ≡ 0)
            (λ n. (self.old.height ≡ self.new.height + 1) × (n ≡ get_or self.old.nodes self.new.height 0)) }
        ensures same { self.new.nodes ≡ self.old.nodes }
    {
        if self.height == 0 {
            return None;
        }
        self.height -= 1;
        Some(self.nodes[self.height])
    }

    pub fn last(&self) -> Option<u16> {
        self.nodes.get(self.height.checked_sub(1)?).copied()
    }
}
