// What a remove writes.
ghost use Rattle.std.specs.Prelude.{◌≤◌, length};
ghost use Rattle.records.specs.Layout.{header_at};
ghost use Rattle.plans.specs.Planning.{pass_on, twin_on, alone_on, out_on, plan_remove_on};
ghost use Rattle.plans.specs.Making.{Makes, Taken};

use crate::Unmade;
use crate::key::hang;
use crate::parts::{freed, look_at, node_at, node_of, side_of};
use lookup::Walk;
use prefix::{Key, Prefix};
use records::Record;

// Removes k, whose stored node the walk ended at. It reads that node and, where it has no side, the one
// above; and the one that the rest is hung from. The width stays a clause: the function is public, and asks its
// callers no more than before.
#[tactic(auto, using(crate::proofs::PartsLaws::node_on_taken), unfolding(crate::specs::Planning::plan_remove_on))]
pub fn make_remove(table: &mut [u32], k: Prefix, s: Walk) -> Result<(), Unmade>
    requires { (16 ≤ length table.old) × (k.width ≤ 128) }
    ensures { Makes table.old (plan_remove_on table.old k s) result table.new }
{
    let r = node_at(table, s.at)?;
    out(table, Key { prefix: k }, s, r)
}

// By the sides that the node has.
#[tactic(auto, unfolding(crate::specs::Planning::out_on))]
fn out(table: &mut [u32], k: Key, s: Walk, r: Record) -> Result<(), Unmade>
    requires { (16 ≤ length table.old) × Taken table.old s.at }
    ensures { Makes table.old (out_on table.old (header_at table.old) k.prefix s r) result table.new }
{
    match (r.left, r.right) {
        (0, 0) => alone(table, k, s),
        (0, right) => pass(table, k, s.up, s.at, right),
        (left, 0) => pass(table, k, s.up, s.at, left),
        (left, right) => {
            records::write_record(
                table,
                s.at,
                node_of(k.prefix, 2 * k.prefix.width, 0, left, right),
            );
            Ok(())
        }
    }
}

// The node goes, and what the link l leads to takes its place.
#[tactic(auto, unfolding(crate::specs::Planning::pass_on))]
fn pass(table: &mut [u32], k: Key, up: u32, at: u32, l: u32) -> Result<(), Unmade>
    requires { (16 ≤ length table.old) × Taken table.old at }
    ensures { Makes table.old (pass_on table.old (header_at table.old) k.prefix up at l) result table.new }
{
    let h = records::read_header(table);
    hang(table, k, up, l, at)?;
    records::write_record(table, at, freed(h.spare));
    Ok(())
}

// The node goes, and has no side: a branch node above it goes too.
#[tactic(auto, using(crate::proofs::PartsLaws::look_on_taken), unfolding(crate::specs::Planning::alone_on))]
fn alone(table: &mut [u32], k: Key, s: Walk) -> Result<(), Unmade>
    requires { (16 ≤ length table.old) × Taken table.old s.at }
    ensures { Makes table.old (alone_on table.old (header_at table.old) k.prefix s) result table.new }
{
    match look_at(table, s.up)? {
        Some(p) if p.tag % 2 == 0 => twin(table, k, s, p),
        _ => pass(table, k, s.up, s.at, 0),
    }
}

// The branch node p and the node go, and p's other side takes its place.
#[tactic(auto, unfolding(crate::specs::Planning::twin_on))]
fn twin(table: &mut [u32], k: Key, s: Walk, p: Record) -> Result<(), Unmade>
    requires { (16 ≤ length table.old) × Taken table.old s.at × Taken table.old s.up }
    ensures { Makes table.old (twin_on table.old (header_at table.old) k.prefix s p) result table.new }
{
    let w = p.tag / 2;
    if k.prefix.width <= w {
        return Err(Unmade::Damaged);
    }
    let h = records::read_header(table);
    hang(
        table,
        k,
        s.over,
        side_of(p, !prefix::bit(k.prefix, w)),
        s.up,
    )?;
    records::write_record(table, s.at, freed(h.spare));
    records::write_record(table, s.up, freed(s.at));
    Ok(())
}
