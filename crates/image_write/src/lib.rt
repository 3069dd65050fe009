// The image writer: a table's map and an epoch, as the file that ships. The table is checked and measured
// before the first byte is written, so that a refusal leaves the output as it was.

#![tactic(auto)]

mod measure; // what is measured before anything is written
mod nodes; // the bytes of nodes
mod tree; // the search tree

ghost use Rattle.std.specs.Prelude.{◌≡◌};
ghost use Rattle.image_write.specs.Whole.{Fills, filled};
ghost use Rattle.image_write.specs.Writing.{WriteImage};

use image_data::Runs;
use measure::{length_of, plan_of};
use refusals::Refusal;
use tree::put_tree;

// Writes the image of the table's map with the epoch, and answers its length. The bytes past it stay,
// and so do all bytes where there is no image: words that no table has, or too short an output, whose
// refusal gives the length needed.
pub fn write(table: &[u32], epoch: u64, out: &mut [u8]) -> Result<usize, Refusal>
    ensures { WriteImage table.now epoch out.old result out.new }
{
    if !audit::audit(table)? {
        return Err(Refusal::Damaged);
    }
    let p = plan_of(table);
    let size = length_of(&p, epoch);
    if out.len() < size {
        return Err(Refusal::ShortOut(size));
    }
    put_image(table, &p, epoch, out);
    Ok(size)
}

// Writes the image. The data section comes first, since the search tree's records are found in it.
fn put_image(table: &[u32], p: &Plan, epoch: u64, out: &mut [u8])
    requires { Fills table.now p.now epoch out.old }
    ensures { (f : Fills table.now p.now epoch out.old) → out.new ≡ filled f.map epoch out.old }
{
    let tree = 6 * p.nodes as usize;
    let tail = image_zones::put_data(table, out, tree + 16);
    metadata::put(out, tree, &[0; 16]);
    put_tree(table, p, out);
    metadata::put_tail(out, tail, p.nodes, epoch);
}

// ---- what the parts of the writer answer

// What is measured before anything is written: the table's root, the nodes of the image, and the
// runs of its data section.
#[derive(Clone, Copy, Debug, PartialEq, Eq)]
pub struct Plan {
    pub root: u32,
    pub nodes: u32,
    pub runs: Runs,
}

// What writing a part of the tree comes to: the next node's number, and the record that a side holds
// which leads to the part.
#[derive(Clone, Copy, Debug, PartialEq, Eq)]
pub struct Grown {
    pub next: u32,
    pub top: u32,
}
