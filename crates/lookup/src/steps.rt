// The path walk on any words: the upper nodes by a descent, the others step by step.
ghost use Rattle.std.specs.Prelude.{◌-◌, ◌≤◌, ◌≡◌, true, length};
ghost use Rattle.std.specs.Result.{result_ok};
ghost use Rattle.records.specs.Layout.{is_table};
ghost use Rattle.lookup.specs.Reading.{Walked};
ghost use Rattle.lookup.specs.Walking.{side_on, down_on, seen_on, step_on, walk_on, walk_from};

use crate::descent::Note;
use crate::{Match, Met, Path, Step, TRAIL, Walk, descent};
use prefix::Key;
use records::Record;
use refusals::Refusal;

// Walks the path of k from the top, and writes the widths of its nodes. The upper nodes are passed by
// a descent; the walk has links where it notes the last nodes.
pub fn walk_path<N: Note>(table: &[u32], k: Key, widths: &mut [u8; TRAIL]) -> Result<Path, Refusal>
    requires { is_table (length table.now) ≡ true }
    ensures { Walked N.noted (walk_from table.now k.prefix widths.old) result widths.new }
{
    let h = records::read_header(table);
    let (d, note) = descent::descend::<N>(table, k.prefix, h.root, widths);
    let s = descent::walk_of(table, d, note.last());
    walk_on(table, k, d.n, s, widths)
}

// Goes on step by step from where a walk stands after some nodes, to the end of the path. Stays a loop left by
// break, which yields the last matching node or the mismatching one: that is the form that paper 01 names. In line
// in both of its callers, where its answer then takes no memory: that saves every call some 100 instructions.
#[inline(always)]
fn walk_on(
    table: &[u32],
    k: Key,
    nodes: usize,
    from: Walk,
    widths: &mut [u8; TRAIL],
) -> Result<Path, Refusal>
    requires { (nodes ≤ from.low) × (from.low ≤ 129) }
    ensures { walk_on (130 - nodes) table.now k.prefix nodes widths.entry.now from ≡ record { widths = widths.exit.now; out = result } }
{
    let mut n = nodes;
    let mut s = from;
    let met = loop {
        match step_at(table, k, s) {
            Some(Step::Down(w, d)) => {
                widths[n] = w as u8;
                n += 1;
                s = d;
            }
            Some(Step::Last(w, b)) => {
                widths[n] = w as u8;
                n += 1;
                break Met::Mismatching(s.next, b);
            }
            Some(Step::End) => {
                break Met::Matching(s.at);
            }
            None => return Err(Refusal::Damaged),
        }
    };
    Ok(Path {
        nodes: n,
        walk: s,
        met,
    })
}

// One step: the record of the next link, if there is one; None for words that no table has. Stays without a Refusal,
// whose number would lie over the walk's links in the answer: these would go through memory at each node of 64 bits or
// more, and a fetch or a store below many of these takes 1.1 to 1.4 times the time. It and `seen` are in line in the
// walk, which saves a store some seven instructions, more than its bar has left (docs/DESIGN-PASS.md).
#[inline(always)]
#[tactic(auto, unfolding(crate::specs::Walking::step_on))]
fn step_at(table: &[u32], k: Key, s: Walk) -> Option<Step>
    ensures { result ≡ result_ok (step_on table.now k.prefix s) }
{
    let next = s.next;
    if next == 0 {
        return Some(Step::End);
    }
    if !records::has_room(table.len(), next) {
        return None; // outside the table
    }
    seen(records::read_record(table, next), k, s)
}

// What a step makes of the record that it reads.
#[inline(always)]
#[tactic(auto, unfolding(crate::specs::Walking::seen_on, crate::specs::Walking::shared_on))]
fn seen(r: Record, k: Key, s: Walk) -> Option<Step>
    ensures { result ≡ result_ok (seen_on r k.prefix s) }
{
    let w = r.tag / 2;
    if 128 < w {
        return None; // wider than any prefix
    }
    let b = prefix::shared(records::key_of(r), k.prefix);
    if b < s.low {
        return None; // not below the node where it hangs
    }
    if b < w {
        return Some(Step::Last(w, b));
    }
    Some(Step::Down(w, down(r, k, s)))
}

// Where the walk goes on from a node that is a prefix of the key.
#[tactic(auto, unfolding(crate::specs::Walking::down_on))]
fn down(r: Record, k: Key, s: Walk) -> Walk
    ensures { result ≡ down_on r k.prefix s }
{
    let width = r.tag / 2;
    let next = side(r, k, width);
    let longest = if r.tag % 2 == 1 {
        Some(Match {
            width,
            zone: r.zone,
        })
    } else {
        s.longest
    };
    Walk {
        at: s.next,
        up: s.at,
        over: s.up,
        next,
        low: width + 1,
        longest,
    }
}

// The link of the side that k goes on by at a node of width w, or 0 where k ends there.
#[tactic(auto, unfolding(crate::specs::Walking::side_on, crate::specs::Walking::agree_on))]
fn side(r: Record, k: Key, w: u32) -> u32
    ensures { result ≡ side_on r k.prefix w }
{
    if w < k.prefix.width {
        if w < prefix::agree(records::key_of(r), k.prefix) {
            return r.left;
        }
        return r.right;
    }
    0
}
