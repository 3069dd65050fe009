// The way to the resume prefix.
ghost use Rattle.std.specs.Prelude.{◌≤◌, ◌≡◌, length};
ghost use Rattle.listing.specs.Touring.{parted_of, sought_of, sought_on, seek_from, start_on};
ghost use Rattle.listing.specs.Bounds.{Narrow};

use crate::links::Links;
use prefix::{Key, Prefix};
use records::Record;
use refusals::Refusal;

// Where the tour starts: the link to look at first, and how many nodes the resume's path has. A link stays a number
// here and below: 0 is none in the table's own words.
#[derive(Clone, Copy, Debug, PartialEq, Eq)]
pub(crate) struct Seek {
    pub(crate) next: u32,
    pub(crate) found: u32,
}

// One step on the way to the resume prefix: go on to a link, which must share so many bits with it,
// or be done with a link to start from; and the side to keep open (0 for none). An enum of its own: both are turns
// of a walk that goes well, so that none of them is a failure or nothing.
#[derive(Clone, Copy, Debug, PartialEq, Eq)]
enum Sought {
    On(u32, u32, u32),
    Done(u32, u32),
}

// Where the tour starts: at the top, or after the path of the resume prefix.
pub(crate) fn begin(
    table: &[u32],
    resume: Option<Prefix>,
    links: &mut Links,
) -> Result<Seek, Refusal>
    requires { (16 ≤ length table.now) × Narrow resume × (links.old.depth ≡ 0) }
    ensures { start_on table.now resume links.old.open ≡ record { links = links.new.open; depth = links.new.depth; out = result } }
{
    let h = records::read_header(table);
    match resume {
        None => Ok(Seek {
            next: h.root,
            found: 0,
        }),
        Some(k) => seek_from(table, Key { prefix: k }, h.root, links),
    }
}

// Walks the path of k, and keeps open each side that lies after k. Stays a loop left by break, which
// yields the link to start from: that is the form that paper 01 names.
fn seek_from(table: &[u32], k: Key, root: u32, links: &mut Links) -> Result<Seek, Refusal>
    requires { links.old.depth ≡ 0 }
    ensures { seek_from table.now k.prefix root links.old.open ≡ record { links = links.new.open; depth = links.new.depth; out = result } }
{
    let mut next = root;
    let mut low: u32 = 0;
    let mut found: u32 = 0;
    let start = loop {
        if next == 0 {
            break 0;
        }
        let x = sought_at(table, k, next, low)?;
        found += 1;
        match x {
            Sought::Done(l, side) => {
                links.push(side)?;
                break l;
            }
            Sought::On(l, w, side) => {
                links.push(side)?;
                next = l;
                low = w;
            }
        }
    };
    Ok(Seek { next: start, found })
}

// One step of that walk, at the link l.
#[tactic(auto, unfolding(crate::specs::Touring::sought_on))]
fn sought_at(table: &[u32], k: Key, l: u32, low: u32) -> Result<Sought, Refusal>
    ensures { result ≡ sought_on table.now k.prefix l low }
{
    if !records::has_room(table.len(), l) {
        return Err(Refusal::Damaged);
    }
    sought_by(records::read_record(table, l), k, l, low)
}

fn sought_by(r: Record, k: Key, l: u32, low: u32) -> Result<Sought, Refusal>
    ensures { result ≡ sought_of r k.prefix l low }
{
    let w = r.tag / 2;
    if 128 < w {
        return Err(Refusal::Damaged);
    }
    let b = prefix::shared(records::key_of(r), k.prefix);
    if b < low {
        return Err(Refusal::Damaged);
    }
    if b < w {
        return Ok(parted(k, l, b));
    }
    if w < k.prefix.width {
        if prefix::bit(k.prefix, w) {
            return Ok(Sought::On(r.right, w + 1, 0));
        }
        return Ok(Sought::On(r.left, w + 1, r.right));
    }
    Ok(Sought::Done(r.left, r.right))
}

// The node at l is no prefix of k, with which it shares b bits: it comes after k, with all below it,
// unless k goes on with a 1 there.
#[tactic(auto, unfolding(crate::specs::Touring::parted_of))]
fn parted(k: Key, l: u32, b: u32) -> Sought
    ensures { result ≡ parted_of k.prefix l b }
{
    if b < k.prefix.width && prefix::bit(k.prefix, b) {
        return Sought::Done(0, 0);
    }
    Sought::Done(l, 0)
}
