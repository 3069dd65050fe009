// The lookup in an image: any 128-bit address, the zone of the longest prefix of the image's list.
// `look` is safe on any bytes, and right for those that the checker accepts. It finds the node count
// at the end of the bytes, and then reads one record for each bit of the address, to the first that
// is no node.

#![tactic(auto)]

ghost use Rattle.std.specs.Prelude.{◌+◌, ◌*◌, ◌≤◌, ◌≡◌, length, slice_index};
ghost use Rattle.bits.specs.Numbers.{bits_of};
ghost use Rattle.image_lookup.specs.Looking.{entry_on, leaf_on, walk_on, address_bits, LookImage};
ghost use Rattle.image_lookup.specs.Following.{words_bits, follow_on};

use refusals::Refusal;

// The zone number of an address of four words, the highest bits first, or no data; or BadImage.
pub fn look(bytes: &[u8], key: [u32; 4]) -> Result<Option<u32>, Refusal>
    ensures { LookImage bytes.now (address_bits (slice_index key 0) (slice_index key 1) (slice_index key 2) (slice_index key 3)) result }
{
    let x = metadata::count(bytes).ok_or(Refusal::BadImage)?;
    if bytes.len() < 6 * x.count as usize {
        return Err(Refusal::BadImage);
    }
    let tree = Tree {
        bytes,
        nodes: x.count,
    };
    tree.walk(key)
}

// The bytes of an image, and how many nodes stand at their start.
#[derive(Clone, Copy)]
struct Tree<'a> {
    bytes: &'a [u8],
    nodes: u32,
    ghost top: { 6 ≤ length bytes.now },
    ghost fits: { 6 * nodes ≤ length bytes.now },
}

impl Tree<'_> {
    // The zone number of an address, or no data; or BadImage. At most 128 records are read.
    fn walk(&self, words: [u32; 4]) -> Result<Option<u32>, Refusal>
        ensures { result ≡ walk_on self.now.bytes.now self.now.nodes 0 (words_bits words) }
    {
        let mut node = 0;
        for word in words {
            node = self.follow(node, word);
            if self.nodes <= node {
                return self.leaf(node);
            }
        }
        Err(Refusal::BadImage)
    }

    // From a node by the bits of one word, the highest first: the first record that is no node, or the
    // node where the bits run out.
    fn follow(&self, from: u32, word: u32) -> u32
        requires { 6 * from + 6 ≤ length self.now.bytes.now }
        ensures { result ≡ follow_on self.now.bytes.now self.now.nodes from (bits_of 32 word) }
    {
        let mut node = from;
        for i in (0..32u32).rev() {
            let bit = (word >> i) % 2;
            let r = metadata::record_at(self.bytes, 6 * node as usize + 3 * bit as usize);
            if self.nodes <= r {
                return r;
            }
            node = r;
        }
        node
    }

    // What a record answers that is no node: no data, or the zone number that it leads to.
    #[tactic(auto, unfolding(crate::specs::Looking::leaf_on))]
    fn leaf(&self, r: u32) -> Result<Option<u32>, Refusal>
        ensures { result ≡ leaf_on self.now.bytes.now self.now.nodes r }
    {
        if r == self.nodes {
            return Ok(None);
        }
        let nodes = self.nodes as usize;
        let record = r as usize;
        if record < nodes + 16 {
            return Err(Refusal::BadImage);
        }
        entry(self.bytes, 5 * nodes + record)
    }
}

// The data entry at a byte: one byte C0 + size, then the number.
// Stays beside the checker's `read`, which also tests for the shortest form, stops at its section's end and gives
// where the next entry starts: a lookup needs none of these.
#[tactic(auto, unfolding(crate::specs::Looking::entry_on))]
fn entry(bytes: &[u8], at: usize) -> Result<Option<u32>, Refusal>
    ensures { result ≡ entry_on bytes.now at }
{
    if bytes.len() <= at {
        return Err(Refusal::BadImage);
    }
    let size = match bytes[at] {
        control @ 0xC0..=0xC4 => (control - 0xC0) as usize,
        _ => return Err(Refusal::BadImage),
    };
    if bytes.len() - at <= size {
        return Err(Refusal::BadImage);
    }
    let number = metadata::number_at(bytes, at + 1, size);
    Ok(Some(number as u32))
}
