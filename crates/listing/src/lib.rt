// Listing in slices: the first b stored prefixes after a resume prefix, in order. The resume's path
// is walked, and the sides that lie after it are kept open on a stack of links; then a tour reads
// the nodes after it one by one. Whether more remain is known from links already read.

#![tactic(auto)]

mod asked; // the refusals of what is asked, before any record is read
mod links; // the stack of open links
mod touring; // the tour
mod way; // the way to the resume prefix

ghost use Rattle.std.specs.Prelude.{◌≤◌, ◌≡◌};
ghost use Rattle.listing.specs.Slicing.{Slice};

use asked::refuse;
use links::Links;
use prefix::Prefix;
use refusals::Refusal;
use touring::tour;
use way::begin;

// What `slice` gives: how many prefixes, whether more remain, and the count of nodes.
#[derive(Clone, Copy, Debug, PartialEq, Eq)]
pub struct Sliced {
    pub given: u32,
    pub more: bool,
    pub count: u32,
}

// Gives the first `size` stored prefixes after the resume prefix, or from the first one on, six words
// each: the four key words, the width, the zone number. The words after them stay, and so do all words
// where the slice is refused, but that a Damaged one may have written some.
pub fn slice(
    table: &[u32],
    resume: Option<Prefix>,
    size: u32,
    out: &mut [u32],
) -> Result<Sliced, Refusal>
    ensures { Slice table.now resume size out.old result out.new }
{
    refuse(table.len(), resume, size, out.len())?;
    let mut links = Links {
        open: [0; 129],
        depth: 0,
    };
    let start = begin(table, resume, &mut links)?;
    let toured = tour(table, size, start.next, &mut links, out)?;
    Ok(Sliced {
        count: toured.count + start.found,
        ..toured
    })
}
