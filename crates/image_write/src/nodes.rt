// The bytes of nodes. The image has a node for each bit of a way, the table only where strings part or
// end, so a way of single steps is written from the key alone, and no record is read for it.
ghost use Rattle.std.specs.Prelude.{◌+◌, ◌-◌, ◌*◌, ◌^◌, ◌≤◌, ◌≡◌, length, drop};
ghost use Rattle.std.proofs.lemmas.List.Edits.{sets};
ghost use Rattle.prefix.specs.Keys.{string_of};
ghost use Rattle.image.specs.Bytes.{bytes_of};
ghost use Rattle.image.specs.Image.{size24, node_bytes};
ghost use Rattle.image_write.specs.Stalks.{step_bytes, PutStalk};

use prefix::Prefix;

// Writes the nodes on the way to the key k from its bit a on, numbered from `next`: each goes on to
// the node after it, the last one to `tip`, and has `above` on its other side. Answers the record
// that leads to the way.
pub(crate) fn put_stalk(out: &mut [u8], k: Prefix, a: u32, next: u32, above: u32, tip: u32) -> u32
    requires { (k.width ≤ 128) × (next + (k.width - a) ≤ 2 ^ 24) × (6 * (next + (k.width - a)) ≤ length out.old) }
    ensures { PutStalk (drop a (string_of k)) next above tip out.old result out.new }
{
    let w = k.width;
    for i in a..w {
        let at = next + (i - a);
        let on = if i + 1 < w { at + 1 } else { tip };
        put_step(out, at, prefix::bit(k, i), on, above);
    }
    if a < w { next } else { tip }
}

// Writes node i, which goes on by the side of the bit x and has `above` on the other.
fn put_step(out: &mut [u8], i: u32, x: bool, on: u32, above: u32)
    requires { 6 * i + 6 ≤ length out.old }
    ensures { out.new ≡ sets out.old (6 * i) (step_bytes x on above) }
{
    if x {
        put_fork(out, i, above, on);
    } else {
        put_fork(out, i, on, above);
    }
}

// Writes the two records of node i.
pub(crate) fn put_fork(out: &mut [u8], i: u32, left: u32, right: u32)
    requires { 6 * i + 6 ≤ length out.old }
    ensures { out.new ≡ sets out.old (6 * i) (node_bytes size24 left right) }
{
    let at = 6 * i as usize;
    put_record(out, at, left);
    put_record(out, at + 3, right);
}

// Writes a record, the highest of its 24 bits first.
fn put_record(out: &mut [u8], at: usize, r: u32)
    requires { at + 3 ≤ length out.old }
    ensures { out.new ≡ sets out.old at (bytes_of 3 r) }
{
    let [_, high, middle, low] = r.to_be_bytes();
    out[at] = high;
    out[at + 1] = middle;
    out[at + 2] = low;
}
