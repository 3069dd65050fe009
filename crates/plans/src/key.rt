// What is made for a key: its nodes, by value, and a link hung on its path.
ghost use Rattle.std.specs.Prelude.{◌+◌, ◌*◌, ◌≤◌, ◌<◌, ◌≡◌, length};
ghost use Rattle.prefix.specs.Keys.{cut_of};
ghost use Rattle.records.specs.Layout.{with_side};
ghost use Rattle.plans.specs.Planning.{node_of, bit_at};
ghost use Rattle.plans.specs.Making.{Hangs};

use crate::Unmade;
use crate::parts::{look_at, node_of, with_side};
use prefix::Key;
use records::{Header, Record};

// The key's node, with no side.
pub(crate) fn leaf(k: Key, zone: u32) -> Record
    ensures { result ≡ node_of k.prefix (2 * k.prefix.width + 1) zone 0 0 }
{
    node_of(k.prefix, 2 * k.prefix.width + 1, zone, 0, 0)
}

// The key's node above the node of p, whose link is l.
pub(crate) fn leaf_above(k: Key, zone: u32, p: Key, l: u32) -> Record
    requires { k.prefix.width < p.prefix.width }
    ensures { result ≡ with_side (node_of k.prefix (2 * k.prefix.width + 1) zone 0 0) (bit_at p.prefix k.prefix.width) l }
{
    with_side(leaf(k, zone), prefix::bit(p.prefix, k.prefix.width), l)
}

// The branch node of the first b bits: the link a on the side that the key goes on by, and l on the other.
pub(crate) fn forked(k: Key, b: u32, l: u32, a: u32) -> Record
    requires { b < k.prefix.width }
    ensures { result ≡ with_side (node_of (cut_of k.prefix b) (2 * b) 0 l l) (bit_at k.prefix b) a }
{
    with_side(
        node_of(prefix::cut(k.prefix, b), 2 * b, 0, l, l),
        prefix::bit(k.prefix, b),
        a,
    )
}

// Hangs the link l from the node `at`, on the side that the key goes on by, or at the top where that is 0;
// and makes `spare` the first spare record. It writes nothing where no table has such a node.
#[tactic(auto, using(crate::proofs::PartsLaws::inside_headed), unfolding(crate::specs::Planning::hang_on))]
pub(crate) fn hang(table: &mut [u32], k: Key, at: u32, l: u32, spare: u32) -> Result<(), Unmade>
    requires { 16 ≤ length table.old }
    ensures { Hangs table.old k.prefix at l spare result table.new }
{
    let h = records::read_header(table);
    let Some(r) = look_at(table, at)? else {
        records::write_header(table, Header { root: l, spare });
        return Ok(());
    };
    let w = r.tag / 2;
    if k.prefix.width <= w {
        return Err(Unmade::Damaged);
    }
    records::write_header(table, Header { spare, ..h });
    records::write_side(table, at, prefix::bit(k.prefix, w), l);
    Ok(())
}
