// The lent table's memory: how long it may be, its header, and its node records. Every other crate
// reads and writes a table through these functions, so the layout stands here alone
// (docs/LAYOUT.md draws it).

#![tactic(auto)]

ghost use Rattle.std.specs.Prelude.{ℕ, ◌+◌, ◌≤◌, ◌≡◌, length};
ghost use Rattle.prefix.specs.Calls.{High};
ghost use Rattle.records.specs.Layout.{is_table, place, room_of, record_at, header_at, with_record, with_header, with_side};
ghost use Rattle.records.specs.Inside.{Inside};
ghost use Rattle.records.specs.Layout.{key_of as key_in};

use prefix::Prefix;

// One node record. A link is 0 for none, else the number of a record, the first being 1. The tag is
// twice the width, plus 1 if a zone is stored here; a spare record has SPARE there, and the next
// spare record in `left`.
#[derive(Clone, Copy, Debug, PartialEq, Eq)]
pub struct Record {
    pub w0: u32,
    pub w1: u32,
    pub w2: u32,
    pub w3: u32,
    pub zone: u32,
    pub left: u32,
    pub right: u32,
    pub tag: u32,
}

// The links by which a table is entered: the top of the tree, and the first spare record.
#[derive(Clone, Copy, Debug, PartialEq, Eq)]
pub struct Header {
    pub root: u32,
    pub spare: u32,
}

// Words of a record, and of the header.
pub const RECORD: usize = 8;

// The shortest and the longest table: one record, and 65,535.
pub const SHORTEST: usize = 16;

pub const LONGEST: usize = 524_288;

// The tag of a spare record, which no node has.
pub const SPARE: u32 = 0xffff_ffff;

// Some table has n words. Stays two comparisons: `sound` of listing says why.
pub fn is_table(n: usize) -> bool
    ensures { result ≡ is_table n }
{
    (SHORTEST <= n) & ((n <= LONGEST) & (n % RECORD == 0))
}

// A table of n words has room for the link l.
pub fn has_room(n: usize, l: u32) -> bool
    ensures { result ≡ room_of n l }
{
    (0 < l) & ((l as usize) < n / RECORD)
}

pub fn read_header(table: &[u32]) -> Header
    requires { 16 ≤ length table.now }
    ensures { result ≡ header_at table.now }
{
    Header {
        root: table[0],
        spare: table[1],
    }
}

// The record of a link: the one place where a whole node record is read.
// That the link leads inside the words stays a clause, here and below: it ties two parameters, of which one is lent.
pub fn read_record(table: &[u32], l: u32) -> Record
    requires { Inside table.now l }
    ensures { result ≡ record_at table.now l }
{
    let at = RECORD * (l as usize);
    Record {
        w0: table[at + 1],
        w1: table[at],
        w2: table[at + 3],
        w3: table[at + 2],
        zone: table[at + 4],
        left: table[at + 5],
        right: table[at + 6],
        tag: table[at + 7],
    }
}

pub fn write_header(table: &mut [u32], h: Header)
    requires { 16 ≤ length table.old }
    ensures { table.new ≡ with_header table.old h }
{
    table[0] = h.root;
    table[1] = h.spare;
}

// The one place where a node record is written.
pub fn write_record(table: &mut [u32], l: u32, r: Record)
    requires { Inside table.old l }
    ensures { table.new ≡ with_record table.old l r }
{
    let at = RECORD * (l as usize);
    table[at] = r.w1;
    table[at + 1] = r.w0;
    table[at + 2] = r.w3;
    table[at + 3] = r.w2;
    table[at + 4] = r.zone;
    table[at + 5] = r.left;
    table[at + 6] = r.right;
    table[at + 7] = r.tag;
}

// The link of one side of a record, that of 1 or that of 0, and no other word.
pub fn write_side(table: &mut [u32], l: u32, right: bool, x: u32)
    requires { Inside table.old l }
    ensures { table.new ≡ with_record table.old l (with_side (record_at table.old l) right x) }
{
    let at = RECORD * (l as usize);
    if right {
        table[at + 6] = x;
        return;
    }
    table[at + 5] = x;
}

// The key of a record, as wide as its tag says.
pub fn key_of(r: Record) -> Prefix
    ensures { result ≡ key_in r }
{
    Prefix {
        width: r.tag / 2,
        w0: r.w0,
        w1: r.w1,
        w2: r.w2,
        w3: r.w3,
    }
}

// ---- one field of a record, by the word that the record starts at: a walk reads no more than it needs
// Stays: one function for each field; a generic one over the field's place would name it by a number.

pub fn tag_at(table: &[u32], at: usize) -> u32
    requires { at + 8 ≤ length table.now }
    ensures { (l : ℕ) → at ≡ place l → result ≡ (record_at table.now l).tag }
{
    table[at + 7]
}

pub fn zone_at(table: &[u32], at: usize) -> u32
    requires { at + 8 ≤ length table.now }
    ensures { (l : ℕ) → at ≡ place l → result ≡ (record_at table.now l).zone }
{
    table[at + 4]
}

// The first half of the key as one number. Its two words stand side by side, the lower one first, so
// that a machine with such an order of bytes reads them as one.
pub fn high_at(table: &[u32], at: usize) -> u64
    requires { at + 8 ≤ length table.now }
    ensures { (l : ℕ) → at ≡ place l → High (key_in (record_at table.now l)) result }
{
    prefix::pair(table[at + 1], table[at])
}

// The link of the side of 0.
pub fn left_at(table: &[u32], at: usize) -> u32
    requires { at + 8 ≤ length table.now }
    ensures { (l : ℕ) → at ≡ place l → result ≡ (record_at table.now l).left }
{
    table[at + 5]
}

// The link of the side of 1.
pub fn right_at(table: &[u32], at: usize) -> u32
    requires { at + 8 ≤ length table.now }
    ensures { (l : ℕ) → at ≡ place l → result ≡ (record_at table.now l).right }
{
    table[at + 6]
}
