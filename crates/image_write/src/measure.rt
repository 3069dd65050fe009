// What is measured before anything is written: how many nodes the image has, the runs of its data
// section, and so its length.
ghost use Rattle.std.specs.Prelude.{ℕ, ◌^◌, ◌≤◌, ◌≡◌};
ghost use Rattle.std.proofs.Math.Option.{none};
ghost use Rattle.zones.specs.Maps.{Map};
ghost use Rattle.zones.specs.Tree.{Tree};
ghost use Rattle.records.specs.Holds.{Holds};
ghost use Rattle.records.specs.Hanging.{Hangs};
ghost use Rattle.image.specs.Tries.{size, grow};
ghost use Rattle.image_data.specs.Runs.{length_of};
ghost use Rattle.image_write.specs.Parts.{Part};
ghost use Rattle.image_write.specs.Whole.{Planned, length_by};

use crate::Plan;

// Measures a table that holds a map.
pub(crate) fn plan_of(table: &[u32]) -> Plan
    requires { (m : Map) × Holds table.now m }
    ensures { (m : Map) → Holds table.now m → Planned table.now m result }
{
    let root = records::read_header(table).root;
    // The empty string is a node, even where nothing is stored below it.
    let nodes = count_below(table, root, 0).max(1);
    let runs = image_zones::measure(table);
    Plan { root, nodes, runs }
}

// The nodes of the image from a string of a bits down, below which the link l hangs.
fn count_below(table: &[u32], l: u32, a: u32) -> u32
    requires { Part table.now l a }
    ensures { (t : Tree ℕ) → Hangs table.now l a t → result ≡ size (grow none a t) }
{
    if l == 0 {
        return 0;
    }
    let r = records::read_record(table, l);
    let w = r.tag / 2;
    let way = w - a;
    if image_zones::both_end(r) {
        return way;
    }
    let x = count_below(table, r.left, w + 1);
    let y = count_below(table, r.right, w + 1);
    way + 1 + x + y
}

// The image's length.
#[tactic(auto, unfolding(crate::specs::Whole::length_by))]
pub(crate) fn length_of(p: &Plan, epoch: u64) -> usize
    requires { length_of p.now.runs ≤ 2 ^ 24 }
    ensures { result ≡ length_by p.now epoch }
{
    let numbers = metadata::bytes_in(u64::from(p.nodes)) + metadata::bytes_in(epoch);
    6 * p.nodes as usize + p.runs.length() + 170 + numbers
}
