// The last part of an image: the marker and the metadata, fixed byte strings around two numbers, the
// node count and the epoch. The writer writes them and the checker compares them, by one function
// here, so that they cannot differ. Every call is safe on any bytes.

#![tactic(auto)]

ghost use Rattle.std.specs.Prelude.{◌+◌, ◌≤◌, ◌<◌, ◌≡◌, IfSome, MatchOption, length};
ghost use Rattle.image.specs.Bytes.{bytes_of, short, uint32, uint64};
ghost use Rattle.metadata.specs.Frames.{tail_of, steps_back, count_on, frame_on};
ghost use Rattle.metadata.specs.Writing.{between, Put, NumberAt, Counts};

// What stands at the end of an image: the node count, the bytes that it takes and those of the epoch.
#[derive(Clone, Copy, Debug, PartialEq, Eq)]
pub struct Nodes {
    pub count: u32,
    pub width: usize,
    pub epoch_width: usize,
}

// A whole marker and metadata at the end: the node count, where the marker starts, the epoch.
#[derive(Clone, Copy, Debug, PartialEq, Eq)]
pub struct Tail {
    pub nodes: u32,
    pub start: usize,
    pub epoch: u64,
}

// The bytes of the shortest image: one node, the epoch 0.
pub const SHORTEST: usize = 177;

// Room for every marker and metadata: a 32-bit number has at most four bytes, an epoch eight.
const LONGEST_TAIL: usize = 166;

// The bytes of a number without leading zero bytes.
pub fn bytes_in(v: u64) -> usize
    ensures { (result ≡ length (short v)) × (result ≤ 8) }
{
    let zeros = v.leading_zeros();
    8 - (zeros / 8) as usize
}

// Writes the bytes of s from `at` on, and says where they end.
// Stays with `out` and `at` beside each other in all that write here: each function of a writer that holds the
// slice would also have to say that it still holds the same one, beside what stands in it.
pub fn put(out: &mut [u8], at: usize, s: &[u8]) -> usize
    requires { at + length s.now ≤ length out.old }
    ensures { Put out.old at s.now out.new result }
{
    let end = at + s.len();
    out[at..end].copy_from_slice(s);
    end
}

// Writes the n lowest bytes of v, the highest of them first.
pub fn put_number(out: &mut [u8], at: usize, v: u64, n: usize) -> usize
    requires { (n ≤ 8) × (at + n ≤ length out.old) }
    ensures { Put out.old at (bytes_of n v) out.new result }
{
    let bytes = v.to_be_bytes();
    put(out, at, &bytes[8 - n..])
}

// Writes v as a MaxMind uint32: one byte C0 + size, then the number without leading zero bytes.
#[tactic(auto, unfolding(image::specs::Bytes::uint32))]
pub fn put_uint32(out: &mut [u8], at: usize, v: u32) -> usize
    requires { at + length (uint32 v) ≤ length out.old }
    ensures { Put out.old at (uint32 v) out.new result }
{
    let number = v as u64;
    let n = bytes_in(number);
    out[at] = 0xC0 + n as u8;
    put_number(out, at + 1, number, n)
}

// Writes v as a MaxMind uint64: the size, the byte 02, the number without leading zero bytes.
// Stays beside `put_uint32`: they differ in what stands before the number, and the number both leave to `put_number`.
#[tactic(auto, unfolding(image::specs::Bytes::uint64))]
fn put_uint64(out: &mut [u8], at: usize, v: u64) -> usize
    requires { at + length (uint64 v) ≤ length out.old }
    ensures { Put out.old at (uint64 v) out.new result }
{
    let n = bytes_in(v);
    out[at] = n as u8;
    out[at + 1] = 2;
    put_number(out, at + 2, v, n)
}

// Writes the metadata's bytes from the node count to the epoch's key, the same in every image.
fn put_between(out: &mut [u8], at: usize) -> usize
    requires { at + 113 ≤ length out.old }
    ensures { Put out.old at between out.new result }
{
    let version = put(out, at, b"\x4Brecord_size\xA1\x18");
    let kind = put(out, version, b"\x4Aip_version\xA1\x06");
    let major = put(out, kind, b"\x4Ddatabase_type\x4CGround-Cells");
    let minor = put(out, major, b"\x5Bbinary_format_major_version\xA1\x02");
    put(out, minor, b"\x5Bbinary_format_minor_version\xA0")
}

// Writes the marker and the metadata of an image of n nodes.
#[tactic(auto, using(crate::proofs::TailLaws::length_between), unfolding(image::specs::Bytes::uint32, image::specs::Bytes::uint64))]
pub fn put_tail(out: &mut [u8], at: usize, n: u32, epoch: u64) -> usize
    requires { at + (154 + length (short n) + length (short epoch)) ≤ length out.old }
    ensures { Put out.old at (tail_of n epoch) out.new result }
{
    let pairs = put(out, at, b"\xAB\xCD\xEFMaxMind.com");
    let nodes = put(out, pairs, b"\xE7\x4Anode_count");
    let fixed = put_uint32(out, nodes, n);
    let last = put_between(out, fixed);
    let number = put(out, last, b"\x4Bbuild_epoch");
    put_uint64(out, number, epoch)
}

// The number that three bytes are, the highest first: a record of the search tree.
pub fn record_at(bytes: &[u8], at: usize) -> u32
    requires { at + 3 ≤ length bytes.now }
    ensures { NumberAt bytes.now at 3 result }
{
    u32::from_be_bytes([0, bytes[at], bytes[at + 1], bytes[at + 2]])
}

// The number that n bytes are.
pub fn number_at(bytes: &[u8], at: usize, n: usize) -> u64
    requires { (n ≤ 8) × (at + n ≤ length bytes.now) }
    ensures { NumberAt bytes.now at n result }
{
    let mut v: u64 = 0;
    for b in &bytes[at..at + n] {
        v = v * 256 + *b as u64;
    }
    v
}

// How many steps back from `at` the byte b stands, where it is among the next f.
fn steps_back(bytes: &[u8], at: usize, b: u8, f: usize) -> Option<usize>
    requires { (at < length bytes.now) × (f ≤ at) }
    ensures { MatchOption result (steps_back bytes.now at b f ≡ f) (λ i. (steps_back bytes.now at b f ≡ i) × (i < f)) }
{
    (0..f).find(|i| bytes[at - *i] == b)
}

// The node count by a few byte tests from the end on, right for every image; not every byte is compared.
#[tactic(auto, unfolding(crate::specs::Frames::count_on, crate::specs::Frames::epoch_bytes, crate::specs::Frames::nodes_bytes))]
pub fn count(bytes: &[u8]) -> Option<Nodes>
    ensures value { result ≡ count_on bytes.now }
    ensures counts { IfSome result (λ x. Counts bytes.now x) }
{
    let size = bytes.len();
    if size < SHORTEST {
        return None;
    }
    let epoch_width = steps_back(bytes, size - 14, 0x4B, 9)?;
    let back = steps_back(bytes, size - epoch_width - 140, 0x4A, 3)?;
    let width = 1 + back;
    let number = number_at(bytes, size - epoch_width - 127 - width, width);
    Some(Nodes {
        count: number as u32,
        width,
        epoch_width,
    })
}

// The node count, the start of the marker and the epoch, where the bytes end as an image does: every
// byte of the marker and the metadata is compared with what the writer writes.
#[tactic(auto, using(crate::proofs::ReadingLaws::tail_fits))]
pub fn frame(bytes: &[u8]) -> Option<Tail>
    ensures { result ≡ frame_on bytes.now }
{
    let x = count(bytes)?;
    let size = bytes.len();
    let start = size - (154 + x.width + x.epoch_width);
    let epoch = number_at(bytes, size - x.epoch_width, x.epoch_width);
    let mut wanted = [0u8; LONGEST_TAIL];
    let end = put_tail(&mut wanted, 0, x.count, epoch);
    let tail = &bytes[start..];
    let written = &wanted[..end];
    if tail == written {
        return Some(Tail {
            nodes: x.count,
            start,
            epoch,
        });
    }
    None
}
