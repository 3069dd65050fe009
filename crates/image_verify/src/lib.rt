// The image checker: are these bytes the image of some list of prefixes and some epoch?
// No memory is lent for it: the tree is gone through by recursion, at most 128 deep, and the data
// section in stretches of 131,072 bytes, for each of which a local bitmap of 16 KiB marks the bytes
// that some record means. No public call has a `requires`.

#![tactic(auto)]

mod data; // the data section
mod tree; // the search tree
mod used; // which data entries are used

ghost use Rattle.std.specs.Prelude.{◌≤◌, ◌≡◌, ◌==◌, length};
ghost use Rattle.std.specs.List.{list_all};
ghost use Rattle.image_verify.specs.Verifying.{verify_frame, VerifyImage};
ghost use Rattle.image_verify.specs.Describing.{Describe};

use data::Section;
use metadata::Tail;
use refusals::Refusal;
use tree::Tree;
use used::exact;

// Whether the bytes are an image: Ok, or BadImage.
pub fn verify(bytes: &[u8]) -> Result<(), Refusal>
    ensures { VerifyImage bytes.now result }
{
    let tail = metadata::frame(bytes).ok_or(Refusal::BadImage)?;
    if parts(bytes, tail) {
        return Ok(());
    }
    Err(Refusal::BadImage)
}

// The parts before the marker: the search tree, 16 zero bytes, and the data section.
fn parts(bytes: &[u8], tail: Tail) -> bool
    requires { tail.start ≤ length bytes.now }
    ensures { result ≡ verify_frame bytes.now (Some tail) }
{
    let size = 6 * (tail.nodes as usize);
    let start = size + 16;
    let end = tail.start;
    if end < start {
        return false;
    }
    let tree = Tree {
        bytes,
        nodes: tail.nodes,
        data: end - start,
    };
    let section = Section { bytes, end };
    zeros(&bytes[size..start])
        && section.entries(start)
        && tree.numbered()
        && exact(&section, tail.nodes)
}

// Every byte is 0. Stays beside `marks::blank`: that is of words and this of bytes, one line each.
fn zeros(bytes: &[u8]) -> bool
    ensures { result ≡ list_all (λ b. b == 0) bytes.now }
{
    bytes.iter().all(|b| *b == 0)
}

// ---- what an image says of itself

// The nodes of an image, its data entries and its epoch.
#[derive(Clone, Copy, Debug, PartialEq, Eq)]
pub struct Description {
    pub nodes: u32,
    pub entries: usize,
    pub epoch: u64,
}

// How many nodes and data entries an image has, and its epoch; BadImage where the bytes do not end as an
// image does, or have no room for the nodes. Other bytes that `verify` does not accept have an answer too,
// which is of no use.
pub fn describe(bytes: &[u8]) -> Result<Description, Refusal>
    ensures { Describe bytes.now result }
{
    let tail = metadata::frame(bytes).ok_or(Refusal::BadImage)?;
    let start = 6 * (tail.nodes as usize) + 16;
    if tail.start < start {
        return Err(Refusal::BadImage);
    }
    let section = Section {
        bytes,
        end: tail.start,
    };
    Ok(Description {
        nodes: tail.nodes,
        entries: section.count(start),
        epoch: tail.epoch,
    })
}

// ---- what the parts of the check answer

// A data entry: where the next one starts, and its number.
#[derive(Clone, Copy, Debug, PartialEq, Eq)]
pub struct Entry {
    pub next: usize,
    pub zone: u32,
}

// What a part of the tree comes to: the next node's number, and whether some data hangs in the part.
#[derive(Clone, Copy, Debug, PartialEq, Eq)]
pub struct Numbered {
    pub next: u32,
    pub has_data: bool,
}
