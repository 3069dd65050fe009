// Reading a lent table: the path walk, and the two calls that it serves, fetch and longest match.
// No public call has a `requires`. A walk reads the nodes of the key's path, and no other record
// (docs/READS.md).

#![tactic(auto)]

ghost use Rattle.std.specs.Prelude.{◌≤◌, ◌≡◌, length};
ghost use Rattle.std.proofs.Math.Seq.{paste};
ghost use Rattle.lookup.specs.Walking.{stored_in, refuse_on, survey_on};
ghost use Rattle.lookup.specs.Fetching.{Fetch};
ghost use Rattle.lookup.specs.Matching.{LongestMatch};

use descent::Last;
use prefix::{Key, Prefix};
use refusals::Refusal;

mod descent; // the upper part of a walk, in few instructions
mod steps; // the walk, step by step

// The bytes of a trail that has room for every path.
pub const TRAIL: usize = 129;

// ---- fetch

// What a keyed call gives: how many nodes the key's path has, and its own value.
#[derive(Clone, Copy, Debug, PartialEq, Eq)]
pub struct Keyed<T> {
    pub nodes: usize,
    pub value: T,
}

// The zone number stored for k. Where it is given, and where it is Absent, the widths of the path's nodes stand
// at the start of the trail, and the bytes after them stay; every other refusal leaves the trail.
pub fn fetch(table: &[u32], k: Prefix, trail: &mut [u8]) -> Result<Keyed<u32>, Refusal>
    ensures { Fetch table.now k trail.old result trail.new }
{
    let x = longest_match(table, k, trail)?;
    stored_at(x.value, k.width)
        .map(|zone| Keyed {
            nodes: x.nodes,
            value: zone,
        })
        .ok_or(Refusal::Absent(x.nodes))
}

// The number of a key of this width itself, by its longest stored prefix.
pub fn stored_at(longest: Option<Match>, width: u32) -> Option<u32>
    ensures { result ≡ stored_in width longest }
{
    match longest {
        Some(m) if m.width == width => Some(m.zone),
        _ => None,
    }
}

// ---- longest match

// A stored prefix of a key, by its width, and its zone number.
#[derive(Clone, Copy, Debug, PartialEq, Eq)]
pub struct Match {
    pub width: u32,
    pub zone: u32,
}

// The longest stored prefix of k, or none. An answer writes the trail as `fetch` does, and a refusal leaves it:
// so the widths go to a local array first, since a Damaged call leaves the trail alone.
pub fn longest_match(
    table: &[u32],
    k: Prefix,
    trail: &mut [u8],
) -> Result<Keyed<Option<Match>>, Refusal>
    ensures { LongestMatch table.now k trail.old result trail.new }
{
    refuse(table.len(), k, trail.len())?;
    let mut widths = [0u8; TRAIL];
    let x = steps::walk_path::<()>(table, Key { prefix: k }, &mut widths)?;
    copy_first(&widths, x.nodes, trail);
    Ok(Keyed {
        nodes: x.nodes,
        value: x.walk.longest,
    })
}

// The refusals of a keyed call before its walk, in their order: on a table of so many words, and with a trail of
// `room` bytes.
// Stays without the key in its answer: handing it on takes some 20 instructions more in a store, and its bar has not
// so many left (docs/DESIGN-PASS.md, Speed).
#[tactic(auto, unfolding(crate::specs::Walking::refuse_on))]
fn refuse(words: usize, k: Prefix, room: usize) -> Result<(), Refusal>
    ensures { result ≡ refuse_on words k room }
{
    if !records::is_table(words) {
        return Err(Refusal::BadLength);
    }
    if !prefix::valid(k) {
        return Err(Refusal::BadPrefix);
    }
    if room < TRAIL {
        return Err(Refusal::ShortOut(TRAIL));
    }
    Ok(())
}

// ---- the walk

// Where a walk stands: the links of the last three nodes that are prefixes of the key, the link to look at next,
// and how many bits of the key a node there must share; and the longest stored prefix so far. Links stay numbers:
// 0 is no link, as in the table's own words. In a read the nodes that its descent passed are not noted, and 0
// stands in their place.
#[derive(Clone, Copy, Debug, PartialEq, Eq)]
pub struct Walk {
    pub at: u32,
    pub up: u32,
    pub over: u32,
    pub next: u32,
    pub low: u32,
    pub longest: Option<Match>,
}

// What a step finds: a node that is a prefix of the key, with its width and where the walk goes on;
// a node that is none, with its width and how many bits it shares; no node.
#[derive(Clone, Copy, Debug, PartialEq, Eq)]
pub enum Step {
    Down(u32, Walk),
    Last(u32, u32),
    End,
}

// The node that a walk ends at: the last that is a prefix of the key (0 for none), or one that is
// none, with how many bits it shares. These two are what paper 01's walk yields, so it is no Option.
#[derive(Clone, Copy, Debug, PartialEq, Eq)]
pub enum Met {
    Matching(u32),
    Mismatching(u32, u32),
}

// A key's path: how many nodes it has, where the walk stood at its end, and what it met there.
#[derive(Clone, Copy, Debug, PartialEq, Eq)]
pub struct Path {
    pub nodes: usize,
    pub walk: Walk,
    pub met: Met,
}

// The refusals of an edit in their order, and then its walk. `room` is the length of the lent trail; the
// widths go to a local array, since a Damaged call leaves the trail alone. In line in both edits, where its answer
// then takes no memory: that saves a store some ten instructions.
#[inline(always)]
pub fn survey(
    table: &[u32],
    k: Prefix,
    room: usize,
    widths: &mut [u8; TRAIL],
) -> Result<Path, Refusal>
    ensures { survey_on table.now k room widths.entry.now ≡ record { widths = widths.exit.now; out = result } }
{
    refuse(table.len(), k, room)?;
    steps::walk_path::<Last>(table, Key { prefix: k }, widths)
}

// Copies the first n bytes.
pub fn copy_first(from: &[u8; TRAIL], n: usize, to: &mut [u8])
    requires { (n ≤ 129) × (n ≤ length to.old) }
    ensures { to.new ≡ paste to.old 0 from.now n }
{
    to[..n].copy_from_slice(&from[..n]);
}
