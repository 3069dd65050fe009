// The search tree. The table's tree is gone through from the root by recursion, in the order in which the
// image numbers its nodes: a node's number is how many come before it, and nothing is kept of these.
ghost use Rattle.std.specs.Prelude.{◌+◌, ◌*◌, ◌^◌, ◌≤◌, length};
ghost use Rattle.image_data.specs.Runs.{length_of};
ghost use Rattle.image_write.specs.Planting.{Here, Planted, Grows, Rooted, Stands};

use crate::nodes::{put_fork, put_stalk};
use crate::{Grown, Plan};
use records::Record;

// Writes all nodes. Where the top is no node of the tree, it is one of the image, with what is
// stored there on both sides.
pub(crate) fn put_tree(table: &[u32], p: &Plan, out: &mut [u8])
    requires { Rooted table.now p.now.root p.now.nodes p.now.runs out.old }
    ensures { Stands table.now p.now.root p.now.nodes p.now.runs out.old out.new }
{
    let x = put_below(table, p.root, 0, p.nodes, 0, p, out);
    if x.next == 0 {
        put_fork(out, 0, x.top, x.top);
    }
}

// Writes the nodes of the image from a string of a bits down, below which the link l hangs, numbered
// from `next`. `above` is the record of the longest stored prefix above; the plan has how many nodes the
// image has, after which the data section already stands, in the plan's runs. One record is read per
// node; what hangs on the sides is written before the node's own, which holds their records.
fn put_below(
    table: &[u32],
    l: u32,
    a: u32,
    above: u32,
    next: u32,
    p: &Plan,
    out: &mut [u8],
) -> Grown
    requires { Planted table.now l a above next p.now.nodes p.now.runs out.old }
    ensures { Grows table.now l a above next p.now.nodes p.now.runs out.old result out.new }
{
    if l == 0 {
        return Grown { next, top: above };
    }
    let r = records::read_record(table, l);
    let k = records::key_of(r);
    let w = r.tag / 2;
    let own = next + (w - a);
    let here = here_of(out, p, r, above);
    if image_zones::both_end(r) {
        let top = put_stalk(out, k, a, next, above, here);
        return Grown { next: own, top };
    }
    let x = put_below(table, r.left, w + 1, here, own + 1, p, out);
    let y = put_below(table, r.right, w + 1, here, x.next, p, out);
    put_fork(out, own, x.top, y.top);
    let top = put_stalk(out, k, a, next, above, own);
    Grown { next: y.next, top }
}

// The record of a node's own zone, or the one above it where it stores none.
fn here_of(out: &[u8], p: &Plan, r: Record, above: u32) -> u32
    requires { (6 * p.now.nodes + 16 + length_of p.now.runs ≤ length out.now) × (p.now.nodes + 16 + length_of p.now.runs ≤ 2 ^ 24) }
    ensures { Here out.now p.now.nodes p.now.runs r above result }
{
    if r.tag % 2 == 0 {
        return above;
    }
    let base = 6 * p.nodes as usize + 16;
    p.nodes + 16 + p.runs.offset_of(out, base, r.zone)
}
