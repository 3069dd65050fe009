// The upper part of a path walk. The nodes that are proper prefixes of the key and narrower than 64
// bits are passed here, each by one shift of an xor, which says at once that the node is a prefix of
// the key and on which side the key goes on. At a record of any other kind, as at the key's own node,
// the descent stops, and the walk goes on from there with `step_at`, which knows every kind. So each
// record that is read here is a node of the key's path.
ghost use Rattle.std.specs.Prelude.{ℕ, ◌+◌, ◌*◌, ◌/◌, ◌%◌, ◌^◌, ◌≤◌, ◌<◌, ◌≡◌, Bool, true, false, length};
ghost use Rattle.records.specs.Layout.{is_table, header_at};
ghost use Rattle.lookup.specs.Descending.{Whole, Held, Turned, ends_on, top_of, past_on, longest_in, walk_in, Sound, Reached};

use crate::{Match, TRAIL, Walk};
use prefix::Prefix;

// Where a descent stands, in as few registers as will do. A record goes by the word at which it starts,
// which is less than 2^20. There is the next one, that of the last stored node (0 for none), how many
// bits a node must share, and how many nodes there were. `held` is a word's place and no link, and stays a number, in
// one register: 0 is the header's place, where no record starts.
#[derive(Clone, Copy, Debug, PartialEq, Eq)]
pub struct Descent {
    pub next: usize,
    pub held: usize,
    pub low: u32,
    pub n: usize,
}

// What a descent notes of the nodes that it passes: an edit asks for the last three, by the words at which
// their records start, and a read for none.
pub trait Note: Copy {
    // whether they are noted, and the last three then, 20 bits each and the last one lowest
    ghost noted: { Bool };

    ghost nodes: { Self → ℕ };

    fn none() -> Self
        ensures { noted ≡ true → nodes result ≡ 0 };

    // With the node whose record starts at the word `at`.
    fn with(self, at: usize) -> Self
        requires { at < 1048576 }
        ensures { noted ≡ true → nodes result ≡ nodes self * 1048576 % 2 ^ 64 + at };

    // The last three, or 0 where they are not noted. They stay one number, which takes one register: an edit hangs
    // its change from these three, 20 bits each.
    fn last(self) -> u64
        ensures { noted ≡ true → result ≡ nodes self };
}

impl Note for () {
    ghost noted = { false };

    ghost nodes = { λ x. 0 };

    fn none() -> () {}

    fn with(self, _at: usize) -> () {}

    fn last(self) -> u64 {
        0
    }
}

#[derive(Clone, Copy, Debug, PartialEq, Eq)]
pub struct Last(pub u64);

impl Note for Last {
    ghost noted = { true };

    ghost nodes = { λ x. x.0 };

    fn none() -> Last {
        Last(0)
    }

    fn with(self, at: usize) -> Last {
        Last((self.0 << 20) + (at as u64))
    }

    fn last(self) -> u64 {
        self.0
    }
}

// What a descent takes from a node that it passes: the tag, and the link by which the key goes on.
#[derive(Clone, Copy, Debug, PartialEq, Eq)]
pub struct Pass {
    pub tag: u32,
    pub link: u32,
}

// Descends from the table's root, and writes the widths of the nodes that it passes. That the words have a table's
// length stays a clause: they are lent as they are, and the call's first test shows it.
pub fn descend<N: Note>(
    table: &[u32],
    k: Prefix,
    root: u32,
    widths: &mut [u8; TRAIL],
) -> (Descent, N)
    requires { (is_table (length table.now) ≡ true) × (root ≡ (header_at table.now).root) }
    ensures { Reached N.noted table.now k widths.old (N.nodes result.1) result.0 widths.new }
{
    let mut d = top(root);
    let mut note = N::none();
    if !ends(table) {
        return (d, note);
    }
    while let Some(x) = turn_at(table, k, d.next, d.low) {
        widths[d.n] = (x.tag / 2) as u8;
        note = note.with(d.next);
        d = past(d, x);
    }
    (d, note)
}

#[tactic(auto, unfolding(crate::specs::Descending::top_of))]
fn top(root: u32) -> Descent
    ensures { result ≡ top_of root }
{
    Descent {
        next: records::RECORD * (root as usize),
        held: 0,
        low: 0,
        n: 0,
    }
}

// The header's last word is no tag of a node to pass, so that a descent ends at a link that is 0 with no
// test of its own. So it is in a fresh table, and no call writes there; on other words all is left to
// `step_at`.
#[tactic(auto, unfolding(crate::specs::Descending::ends_on))]
fn ends(table: &[u32]) -> bool
    requires { 16 ≤ length table.now }
    ensures { result ≡ ends_on table.now }
{
    128 <= records::tag_at(table, 0)
}

// The record at the word `at`, if it is a node to pass: never the key's own, below which no node is on
// the path. Both links are read, so that the next record's place waits for a choice and not for another
// read.
#[tactic(auto, using(crate::proofs::DescentLaws::whole_room))]
fn turn_at(table: &[u32], k: Prefix, at: usize, low: u32) -> Option<Pass>
    requires { (is_table (length table.now) ≡ true) × Whole at × (ends_on table.now ≡ true) }
    ensures { Turned table.now k at low result }
{
    if table.len() <= at {
        return None;
    }
    let tag = records::tag_at(table, at);
    let left = records::left_at(table, at);
    let right = records::right_at(table, at);
    let w = tag / 2;
    if w < low {
        return None;
    }
    if k.width.min(64) <= w {
        return None;
    }
    let x = prefix::parting(records::high_at(table, at), prefix::high(k), w);
    if 1 < x {
        return None;
    }
    let link = if x == 1 { right } else { left };
    Some(Pass { tag, link })
}

// The descent past the node where it stands.
#[tactic(auto, unfolding(crate::specs::Descending::past_on))]
fn past(d: Descent, x: Pass) -> Descent
    requires { d.n < 129 }
    ensures { (result ≡ past_on d x.tag x.link) × (result.next / 8 < 2 ^ 32) }
{
    Descent {
        next: records::RECORD * (x.link as usize),
        held: if x.tag % 2 == 1 { d.next } else { d.held },
        low: x.tag / 2 + 1,
        n: d.n + 1,
    }
}

// ---- what a descent stands for

// The walk that goes on from where a descent stopped, with the last nodes.
#[tactic(auto, unfolding(crate::specs::Descending::walk_in))]
pub fn walk_of(table: &[u32], d: Descent, last: u64) -> Walk
    requires { Sound table.now d }
    ensures { result ≡ walk_in table.now last d }
{
    Walk {
        at: link_of(last),
        up: link_of(last >> 20),
        over: link_of(last >> 40),
        next: (d.next / records::RECORD) as u32,
        low: d.low,
        longest: longest_at(table, d.held),
    }
}

// The link of the record at the word that the 20 lowest bits say.
fn link_of(last: u64) -> u32
    ensures { result ≡ last % 1048576 / 8 }
{
    (last % 1_048_576 / 8) as u32
}

// The stored node whose record starts at the word `at`, or none.
#[tactic(auto, unfolding(crate::specs::Descending::longest_in))]
fn longest_at(table: &[u32], at: usize) -> Option<Match>
    requires { Held table.now at }
    ensures { result ≡ longest_in table.now at }
{
    if at == 0 {
        return None;
    }
    Some(Match {
        width: records::tag_at(table, at) / 2,
        zone: records::zone_at(table, at),
    })
}
