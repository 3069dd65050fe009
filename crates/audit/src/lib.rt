// The whole-table check: are these words a table of some map? It goes through the tree by recursion
// on the width, at most 129 deep, and then along the spare chain, and needs no memory of its own.
// Each record is counted once, and a count that runs out ends the check, on damaged memory too.

#![tactic(auto)]

ghost use Rattle.std.specs.Prelude.{ℕ, ◌+◌, ◌≤◌, ◌≡◌, length};
ghost use Rattle.prefix.specs.Keys.{Valid};
ghost use Rattle.audit.specs.Checking.{stands as stands_of, is_node, below_on, chain_on, Check};
ghost use Rattle.audit.specs.Bounds.{low_of};

use prefix::Prefix;
use records::Record;
use refusals::Refusal;

// Where a node below the top stands: under a node with this key, on the side of this bit.
#[derive(Clone, Copy)]
struct Under {
    key: Prefix,
    side: bool,
}

// Whether the words are a table of some map.
pub fn audit(table: &[u32]) -> Result<bool, Refusal>
    ensures { Check table.now result }
{
    if !records::is_table(table.len()) {
        return Err(Refusal::BadLength);
    }
    let h = records::read_header(table);
    let c = table.len() / records::RECORD - 1;
    match below(table, h.root, None, c as u32) {
        None => Ok(false),
        Some(n) => Ok(chain(table, h.spare, n)),
    }
}

// The nodes from the link l down, of which there may be `left`: how many records are then left, or
// None for words that no table has.
// What it asks of the place stays a clause, in three contracts: the definition makes a place below any record,
// however wide its key.
fn below(table: &[u32], l: u32, at: Option<Under>, left: u32) -> Option<u32>
    requires { low_of at ≤ 129 }
    ensures { (f : ℕ) → 130 ≤ low_of at + f → below_on f table.now l at left ≡ result }
{
    if l == 0 {
        return Some(left);
    }
    if left == 0 || !records::has_room(table.len(), l) {
        return None;
    }
    let r = records::read_record(table, l);
    if !is_node(r, at) {
        return None;
    }
    let key = records::key_of(r);
    let n = below(table, r.left, Some(Under { key, side: false }), left - 1)?;
    below(table, r.right, Some(Under { key, side: true }), n)
}

// The record is a node that may stand there: its key is valid, begins as the place says, and it
// stores a zone or has both sides.
#[tactic(auto, unfolding(crate::specs::Checking::is_node))]
fn is_node(r: Record, at: Option<Under>) -> bool
    requires { low_of at ≤ 129 }
    ensures { result ≡ is_node r at }
{
    let k = records::key_of(r);
    prefix::valid(k) && stands(k, at) && (r.tag % 2 == 1 || (0 < r.left && 0 < r.right))
}

// The key begins as the place says. Stays a match: with `is_none_or`, the proof of what it returns did not close.
fn stands(k: Prefix, at: Option<Under>) -> bool
    requires { Valid k × (low_of at ≤ 129) }
    ensures { result ≡ stands_of k at }
{
    match at {
        None => true,
        Some(p) => {
            p.key.width < k.width
                && prefix::begins(k, p.key)
                && prefix::bit(k, p.key.width) == p.side
        }
    }
}

// The spare records from the link l on are exactly `left`, and then the chain ends.
fn chain(table: &[u32], l: u32, left: u32) -> bool
    ensures { result ≡ chain_on table.now l left }
{
    let mut at = l;
    for _ in 0..left {
        if !records::has_room(table.len(), at) {
            return false; // a link outside, or the chain ends too early
        }
        let r = records::read_record(table, at);
        if r.tag != records::SPARE {
            return false;
        }
        at = r.left;
    }
    at == 0
}
