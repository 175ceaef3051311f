// A walk along the arrows of the nodes, depth first. It leaves ranks: no arrow leads to a higher one, and from a node on no circle all lead
// to lower ones. Nothing is proved of the walk but that it ends: the ranks are tested before they are used, and wrong ones would cost time.
use super::lent::Judged;
use super::stack::Stack;
use super::{number_of, put_at};
use limits::Limits;
use nodes::arrow_at;

// How far the walk has come.
#[derive(Drop)]
struct Walk<'a> {
    // The next node to start from.
    start: u16,
    // How many nodes are met.
    met: u16,
    // The next rank: past all numbers of nodes met.
    rank: u16,
    // The nodes from the start to where it stands, and those met that have no rank yet.
    path: Stack<{ Limits::NODES }>,
    held: Stack<{ Limits::NODES }>,
    // By node: the arrow to go along next, the number that it got when it was met, and its rank. Until it has a rank, that is the lowest
    // number that it is known to lead to.
    next: [u16; Limits::NODES],
    first: [u16; Limits::NODES],
    ranks: &'a mut [u16],
}

impl<'a> Walk<'a> {
    // Whether it stands nowhere, and there is no node to start from.
    fn is_done(&self, used: usize) -> bool {
        used <= usize::from(self.start) && self.path.height == 0
    }

    // The walk goes to node x, which it has not met, and numbers it.
    fn enter(&mut self, x: u16) {
        self.met = self.met.saturating_add(1);
        put_at(&mut self.first, x, self.met);
        put_at(self.ranks, x, self.met);
        self.path.push(x);
        self.held.push(x);
    }

    // The nodes held, down to node v, get their rank.
    fn give_rank(&mut self, v: u16) {
        while let Some(x) = self.held.pop() {
            put_at(self.ranks, x, self.rank);
            if x == v {
                break;
            }
        }
        self.rank = self.rank.saturating_add(1);
    }

    // The walk is done with node v, where it stands. If it leads to no node met before it that has no rank, those met since that have none are
    // on circles with it.
    fn leave(&mut self, v: u16) {
        self.path.pop();
        if number_of(self.ranks, v) == number_of(&self.first, v) {
            self.give_rank(v);
        }
    }

    // Whether node x is one of the first `used` that is not met.
    fn is_new(&self, used: usize, x: u16) -> bool {
        usize::from(x) < used && number_of(self.ranks, x) == 0
    }

    // Where an arrow of v leads to x, v gets the lower number of the two.
    fn lower(&mut self, used: usize, v: u16, x: u16) {
        if usize::from(x) < used {
            let low = number_of(self.ranks, x);
            if low < number_of(self.ranks, v) {
                put_at(self.ranks, v, low);
            }
        }
    }

    // One step: to a node, along an arrow, or back.
    fn step(&mut self, at: Judged) {
        match self.path.last() {
            None => {
                let x = self.start;
                self.start = x.saturating_add(1);
                if self.is_new(at.used, x) {
                    self.enter(x);
                }
            }
            Some(v) => {
                let j = number_of(&self.next, v);
                if at.arrows_at(v) <= j {
                    self.leave(v);
                    return;
                }
                let x = arrow_at(at.nodes, v, j);
                if self.is_new(at.used, x) {
                    self.enter(x);
                    return;
                }
                self.lower(at.used, v, x);
                put_at(&mut self.next, v, j.saturating_add(1));
            }
        }
    }
}

// The ranks of the nodes, which all have rank 0 before. A node takes a step to start from it, one to go to it, one for each arrow, eight at
// most, and one back.
pub(crate) fn rank_all(at: Judged, ranks: &mut [u16]) {
    let mut walk = Walk {
        start: 0,
        met: 0,
        rank: 3201,
        path: Stack::new(),
        held: Stack::new(),
        next: [0; Limits::NODES],
        first: [0; Limits::NODES],
        ranks,
    };
    for _ in 0..11 * at.used {
        if walk.is_done(at.used) {
            break;
        }
        walk.step(at);
    }
}
