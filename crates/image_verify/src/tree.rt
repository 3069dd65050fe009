// The search tree: are its nodes numbered as an image's are? They are gone through from the top by
// recursion, in the order of their numbers. A record may mean no other node than the next one, so no
// node is read twice, whatever the bytes are.
ghost use Rattle.std.specs.Prelude.{ℕ, ◌*◌, ◌≤◌, ◌<◌, ◌≡◌, length};
ghost use Rattle.image_verify.specs.Verifying.{side_on, below_on, tree_on};

use crate::Numbered;

// The nodes at the start of some bytes, and how many bytes the data section has that their records lead to.
#[derive(Clone, Copy)]
pub(crate) struct Tree<'a> {
    pub bytes: &'a [u8],
    pub nodes: u32,
    pub data: usize,
    ghost fits: { 6 * nodes ≤ length bytes.now },
}

impl Tree<'_> {
    // The nodes are numbered as an image's are.
    pub(crate) fn numbered(&self) -> bool
        ensures { result ≡ tree_on self.now.bytes.now self.now.nodes self.now.data }
    {
        if self.nodes == 0 {
            return false;
        }
        // Stays a match: tried as `is_some_and`, and the proof of it did not close: of a closure without a clause of
        // its own nothing was known here.
        match self.below(0, 128) {
            Some(x) => x.next == self.nodes,
            None => false,
        }
    }

    // The nodes from node i down, where `left` may stand on a way down. Each is read once.
    #[cycle(below_side)]
    #[tactic(auto, unfolding(crate::specs::Verifying::record_no))]
    fn below(&self, i: u32, left: u32) -> Option<Numbered>
        requires { i < self.now.nodes }
        ensures { (f : ℕ) → f ≡ left → result ≡ below_on f self.now.bytes.now self.now.nodes self.now.data i }
    {
        if left == 0 {
            return None;
        }
        let at = 6 * (i as usize);
        let left_record = metadata::record_at(self.bytes, at);
        let x = self.side(i + 1, left_record, left - 1)?;
        let right_record = metadata::record_at(self.bytes, at + 3);
        let y = self.side(x.next, right_record, left - 1)?;
        Some(Numbered {
            next: y.next,
            has_data: x.has_data | y.has_data,
        })
    }

    // The side that the record r means, where the next node's number is `next`. A node but the top has some data
    // below it. (In line in `below`: with a call for each record the whole check takes half as long again.)
    #[inline(always)]
    #[cycle(below_side)]
    #[tactic(auto, unfolding(crate::specs::Verifying::side_on))]
    fn side(&self, next: u32, r: u32, left: u32) -> Option<Numbered>
        ensures { result ≡ side_on (λ j. below_on left self.now.bytes.now self.now.nodes self.now.data j) self.now.nodes self.now.data next r }
    {
        if r < self.nodes {
            if r != next {
                return None;
            }
            return self.below(next, left).filter(|x| x.has_data);
        }
        if r == self.nodes {
            return Some(Numbered {
                next,
                has_data: false,
            });
        }
        let first = self.nodes as usize + 16;
        let at = r as usize;
        if first <= at && at - first < self.data {
            return Some(Numbered {
                next,
                has_data: true,
            });
        }
        None
    }
}
