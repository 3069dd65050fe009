// The links left open: a stack of as many as the tree of a table may need, the first `depth` of `open`.
// A link stays a number, 0 for none: it is passed on as the table has it, and an Option of it would be made and
// taken apart at each node.
ghost use Rattle.std.specs.Prelude.{◌≤◌, ◌≡◌, IsOk};
ghost use Rattle.listing.specs.Touring.{push_on, pop_on, room_on};

use refusals::Refusal;

#[derive(Drop)]
pub(crate) struct Links {
    pub(crate) open: [u32; 129],
    pub(crate) depth: usize,
    ghost within: { depth ≤ 129 },
}

impl Links {
    // Leaves the link l open, if there is one. Damaged where there is no room, which no table needs.
    #[tactic(auto, unfolding(crate::specs::Touring::push_on))]
    pub(crate) fn push(&mut self, l: u32) -> Result<(), Refusal>
        ensures answer { result ≡ room_on (push_on self.old.open self.old.depth l).depth }
        ensures open { self.new.open ≡ (push_on self.old.open self.old.depth l).links }
        ensures depth { IsOk result → self.new.depth ≡ (push_on self.old.open self.old.depth l).depth }
    {
        if l == 0 {
            return Ok(());
        }
        let top = self.depth;
        if top == self.open.len() {
            return Err(Refusal::Damaged);
        }
        self.open[top] = l;
        self.depth = top + 1;
        Ok(())
    }

    // The link to look at: the given one, or else the last that was left open.
    #[tactic(auto, unfolding(crate::specs::Touring::pop_on))]
    pub(crate) fn next(&mut self, l: u32) -> u32
        ensures answer { pop_on self.old.open l self.old.depth ≡ record { next = result; depth = self.new.depth } }
        ensures open { self.new.open ≡ self.old.open }
    {
        if l != 0 || self.depth == 0 {
            return l;
        }
        self.depth -= 1;
        self.open[self.depth]
    }
}
