// The tour: the nodes after the resume prefix, one by one.
ghost use Rattle.std.specs.Prelude.{◌+◌, ◌*◌, ◌≤◌, ◌<◌, ◌≡◌, length};
ghost use Rattle.listing.specs.Touring.{visit_on, entry_put, tour_from};

use crate::Sliced;
use crate::links::Links;
use records::Record;
use refusals::Refusal;

// Lists the nodes from `start` on, and then from the open links, until `size` entries are given: how
// many it gave, whether more remain, and how many nodes it passed. These are at most as many as the
// table has records.
pub(crate) fn tour(
    table: &[u32],
    size: u32,
    start: u32,
    links: &mut Links,
    out: &mut [u32],
) -> Result<Sliced, Refusal>
    requires { (6 * size ≤ length out.old) × (size ≤ 4096) × (16 ≤ length table.now) × (length table.now ≤ 524288) }
    ensures { tour_from table.now size start links.old.depth links.old.open out.old ≡ record { links = links.new.open; words = out.new; out = result } }
{
    let budget = (table.len() / records::RECORD) as u32;
    let mut next = start;
    let mut given: u32 = 0;
    for count in 0..=budget {
        let l = links.next(next);
        if l == 0 {
            return Ok(Sliced {
                given,
                more: false,
                count,
            });
        }
        if given == size {
            return Ok(Sliced {
                given,
                more: true,
                count,
            });
        }
        if count == budget {
            break;
        }
        let r = visit_at(table, l)?;
        given = put_entry(out, given, r);
        links.push(r.right)?;
        next = r.left;
    }
    Err(Refusal::Damaged)
}

// The record of a node.
#[tactic(auto, unfolding(crate::specs::Touring::visit_on))]
fn visit_at(table: &[u32], l: u32) -> Result<Record, Refusal>
    ensures { result ≡ visit_on table.now l }
{
    if !records::has_room(table.len(), l) {
        return Err(Refusal::Damaged);
    }
    let r = records::read_record(table, l);
    if 257 < r.tag {
        return Err(Refusal::Damaged);
    }
    Ok(r)
}

// Writes the entry of a stored node as the n-th, and answers how many are then given.
fn put_entry(out: &mut [u32], n: u32, r: Record) -> u32
    requires { (6 * n + 6 ≤ length out.old) × (n < 4096) }
    ensures { entry_put out.old n r ≡ record { words = out.new; given = result } }
{
    if r.tag % 2 == 0 {
        return n;
    }
    let at = 6 * (n as usize);
    // Stays: `copy_from_slice` first puts the six words on the stack, nine instructions more an entry: some 580 of
    // the 5,100 that a slice of 64 takes over 20,000 routes.
    out[at] = r.w0;
    out[at + 1] = r.w1;
    out[at + 2] = r.w2;
    out[at + 3] = r.w3;
    out[at + 4] = r.tag / 2;
    out[at + 5] = r.zone;
    n + 1
}
