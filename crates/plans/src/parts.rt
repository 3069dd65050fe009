// What a store and a remove are made of: what a link leads to, and records by value.
ghost use Rattle.std.specs.Prelude.{◌≡◌};
ghost use Rattle.records.specs.Layout.{side_of, with_side};
ghost use Rattle.plans.specs.Planning.{look_on, node_on, spare_on, node_of, freed_of};

use crate::{Spare, Unmade};
use prefix::Prefix;
use records::Record;

// ---- reading

// The record that the link l must lead to.
#[tactic(auto, using(records::proofs::LayoutLaws::inside_tested), unfolding(crate::specs::Planning::node_on))]
pub(crate) fn node_at(table: &[u32], l: u32) -> Result<Record, Unmade>
    ensures { result ≡ node_on table.now l }
{
    if !records::has_room(table.len(), l) {
        return Err(Unmade::Damaged);
    }
    Ok(records::read_record(table, l))
}

// The record that the link l leads to, or none where that is 0.
#[tactic(auto, unfolding(crate::specs::Planning::look_on))]
pub(crate) fn look_at(table: &[u32], l: u32) -> Result<Option<Record>, Unmade>
    ensures { result ≡ look_on table.now l }
{
    match l {
        0 => Ok(None),
        _ => Ok(Some(node_at(table, l)?)),
    }
}

// The spare record at the link l: none is left where that is 0.
#[tactic(auto, unfolding(crate::specs::Planning::spare_on))]
pub(crate) fn spare_at(table: &[u32], l: u32) -> Result<Spare, Unmade>
    ensures { result ≡ spare_on table.now l }
{
    if l == 0 {
        return Err(Unmade::Full);
    }
    let r = node_at(table, l)?;
    if r.tag != records::SPARE {
        return Err(Unmade::Damaged);
    }
    Ok(Spare {
        link: l,
        next: r.left,
    })
}

// ---- records by value

// A record with the words of k.
#[tactic(auto, unfolding(crate::specs::Planning::node_of))]
pub(crate) fn node_of(k: Prefix, tag: u32, zone: u32, left: u32, right: u32) -> Record
    ensures { result ≡ node_of k tag zone left right }
{
    Record {
        w0: k.w0,
        w1: k.w1,
        w2: k.w2,
        w3: k.w3,
        zone,
        left,
        right,
        tag,
    }
}

// A spare record, with the next one's link.
#[tactic(auto, unfolding(crate::specs::Planning::freed_of))]
pub fn freed(next: u32) -> Record
    ensures { result ≡ freed_of next }
{
    Record {
        w0: 0,
        w1: 0,
        w2: 0,
        w3: 0,
        zone: 0,
        left: next,
        right: 0,
        tag: records::SPARE,
    }
}

// The record with the link l on one side.
pub(crate) fn with_side(r: Record, right: bool, l: u32) -> Record
    ensures { result ≡ with_side r right l }
{
    if right {
        Record { right: l, ..r }
    } else {
        Record { left: l, ..r }
    }
}

// The link of one side.
pub(crate) fn side_of(r: Record, right: bool) -> u32
    ensures { result ≡ side_of r right }
{
    if right { r.right } else { r.left }
}
