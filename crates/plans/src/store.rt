// What a store writes.
ghost use Rattle.std.specs.Prelude.{◌≤◌, ◌<◌, length};
ghost use Rattle.records.specs.Layout.{header_at};
ghost use Rattle.plans.specs.Planning.{here_on, above_on, fork_on, new_on, plan_store_on};
ghost use Rattle.plans.specs.Making.{Makes, Taken};

use crate::key::{forked, hang, leaf, leaf_above};
use crate::parts::{node_at, node_of, spare_at};
use crate::{Spare, Unmade};
use lookup::{Met, Walk};
use prefix::{Key, Prefix};

// Stores k with its zone number, from where the walk ended. It reads the last node on the path that is a
// prefix of k, the one that is none where k is shorter than it, and at most the first two spare records. The width
// stays a clause: the function is public, and asks its callers no more than before.
#[tactic(auto, using(crate::proofs::PartsLaws::spare_on_taken), unfolding(crate::specs::Planning::plan_store_on))]
pub fn make_store(table: &mut [u32], k: Prefix, zone: u32, s: Walk, e: Met) -> Result<(), Unmade>
    requires { (16 ≤ length table.old) × (k.width ≤ 128) }
    ensures { Makes table.old (plan_store_on table.old k zone s e) result table.new }
{
    let k = Key { prefix: k };
    if s.low == k.prefix.width + 1 {
        return here(table, k, zone, s.at);
    }
    let h = records::read_header(table);
    let x = spare_at(table, h.spare)?;
    new(table, k, zone, s.at, e, x)
}

// The key has a node: it takes the zone number.
#[tactic(auto, using(crate::proofs::PartsLaws::inside_node), unfolding(crate::specs::Planning::here_on))]
fn here(table: &mut [u32], k: Key, zone: u32, at: u32) -> Result<(), Unmade>
    ensures { Makes table.old (here_on table.old (header_at table.old) k.prefix zone at) result table.new }
{
    let r = node_at(table, at)?;
    records::write_record(
        table,
        at,
        node_of(k.prefix, 2 * k.prefix.width + 1, zone, r.left, r.right),
    );
    Ok(())
}

// The key has no node: it takes the spare record x.
fn new(table: &mut [u32], k: Key, zone: u32, at: u32, e: Met, x: Spare) -> Result<(), Unmade>
    requires { (16 ≤ length table.old) × Taken table.old x.link }
    ensures { Makes table.old (new_on table.old (header_at table.old) k.prefix zone at e x.link x.next) result table.new }
{
    match e {
        Met::Matching(_) => {
            hang(table, k, at, x.link, x.next)?;
            records::write_record(table, x.link, leaf(k, zone));
            Ok(())
        }
        Met::Mismatching(l, b) => {
            if b < k.prefix.width {
                fork(table, k, zone, at, l, b, x)
            } else {
                above(table, k, zone, at, l, x)
            }
        }
    }
}

// The key ends above the node l: that hangs from the key's node by its next bit.
#[tactic(auto, unfolding(crate::specs::Planning::above_on, records::specs::Layout::key_of))]
fn above(table: &mut [u32], k: Key, zone: u32, at: u32, l: u32, x: Spare) -> Result<(), Unmade>
    requires { (16 ≤ length table.old) × Taken table.old x.link }
    ensures { Makes table.old (above_on table.old (header_at table.old) k.prefix zone at l x.link x.next) result table.new }
{
    let p = records::key_of(node_at(table, l)?);
    if 128 < p.width || p.width <= k.prefix.width {
        return Err(Unmade::Damaged);
    }
    hang(table, k, at, x.link, x.next)?;
    records::write_record(table, x.link, leaf_above(k, zone, Key { prefix: p }, l));
    Ok(())
}

// The key parts from the node l after b bits: a branch node, in the second spare record, holds both.
#[tactic(auto, unfolding(crate::specs::Planning::fork_on))]
fn fork(
    table: &mut [u32],
    k: Key,
    zone: u32,
    at: u32,
    l: u32,
    b: u32,
    x: Spare,
) -> Result<(), Unmade>
    requires { (16 ≤ length table.old) × (b < k.prefix.width) × Taken table.old x.link }
    ensures { Makes table.old (fork_on table.old (header_at table.old) k.prefix zone at l b x.link x.next) result table.new }
{
    let y = spare_at(table, x.next)?;
    hang(table, k, at, y.link, y.next)?;
    records::write_record(table, x.link, leaf(k, zone));
    records::write_record(table, y.link, forked(k, b, l, x.link));
    Ok(())
}
