// Changing a lent table: fresh, store and remove. No public call has a `requires`. A store and a
// remove survey the key's path, and then write; a refusal writes nothing into the table.

#![tactic(auto)]

ghost use Rattle.std.specs.Prelude.{◌+◌, ◌*◌, ◌≤◌, ◌≡◌, length};
ghost use Rattle.plans.specs.Planning.{freed_of};
ghost use Rattle.edits.specs.Fresh.{next_of, chained_on, Fresh};
ghost use Rattle.edits.specs.Storing.{Store};
ghost use Rattle.edits.specs.Removing.{Remove};

use lookup::{Keyed, TRAIL};
use plans::Unmade;
use prefix::Prefix;
use records::{Header, Record};
use refusals::Refusal;

// ---- fresh

// Makes the lent memory an empty table: no node, and every record spare. The header's other words are a
// spare record's, whose tag ends a descent where a link is 0.
#[tactic(auto, using(records::proofs::LayoutLaws::is_table_true))]
pub fn fresh(table: &mut [u32]) -> Result<(), Refusal>
    ensures { Fresh table.old result table.new }
{
    if !records::is_table(table.len()) {
        return Err(Refusal::BadLength);
    }
    let count = table.len() / records::RECORD - 1;
    records::write_record(table, 0, plans::freed(0));
    chain(table, count as u32);
    records::write_header(table, Header { root: 0, spare: 1 });
    Ok(())
}

// Makes each record from 1 to c spare, each with the next one's link, and the last with none.
#[tactic(auto, unfolding(crate::specs::Fresh::chained_on))]
fn chain(table: &mut [u32], c: u32)
    requires { 8 * c + 8 ≤ length table.old }
    ensures { table.new ≡ chained_on table.old c c }
{
    for l in 0..c {
        records::write_record(table, l + 1, spare(l + 1, c));
    }
}

// The spare record l of c.
fn spare(l: u32, c: u32) -> Record
    ensures { result ≡ freed_of (next_of l c) }
{
    plans::freed(if l < c { l + 1 } else { 0 })
}

// ---- store

// Stores the zone number for k, in place of the old one if there is one, which it gives. Where it is stored, and
// where the table is Full, the widths of the path's nodes stand in the trail, from the set as it stood before;
// every other refusal leaves the trail. A refusal, Full too, leaves the table.
pub fn store(
    table: &mut [u32],
    k: Prefix,
    zone: u32,
    trail: &mut [u8],
) -> Result<Keyed<Option<u32>>, Refusal>
    ensures { Store table.old k zone trail.old result table.new trail.new }
{
    let mut widths = [0u8; TRAIL];
    let p = lookup::survey(table, k, trail.len(), &mut widths)?;
    let answer = match plans::make_store(table, k, zone, p.walk, p.met) {
        Ok(()) => Ok(Keyed {
            nodes: p.nodes,
            value: lookup::stored_at(p.walk.longest, k.width),
        }),
        Err(Unmade::Full) => Err(Refusal::Full(p.nodes)),
        Err(Unmade::Damaged) => return Err(Refusal::Damaged),
    };
    lookup::copy_first(&widths, p.nodes, trail);
    answer
}

// ---- remove

// Takes k out, and gives its zone number. Where it is taken out, and where it is Absent, the widths of the path's
// nodes stand in the trail, from the set as it stood before; every other refusal leaves the trail. A refusal
// leaves the table.
pub fn remove(table: &mut [u32], k: Prefix, trail: &mut [u8]) -> Result<Keyed<u32>, Refusal>
    ensures { Remove table.old k trail.old result table.new trail.new }
{
    let mut widths = [0u8; TRAIL];
    let p = lookup::survey(table, k, trail.len(), &mut widths)?;
    let answer = match lookup::stored_at(p.walk.longest, k.width) {
        Some(zone) => {
            plans::make_remove(table, k, p.walk).map_err(|_| Refusal::Damaged)?;
            Ok(Keyed {
                nodes: p.nodes,
                value: zone,
            })
        }
        None => Err(Refusal::Absent(p.nodes)),
    };
    lookup::copy_first(&widths, p.nodes, trail);
    answer
}
