// Prefixes of at most 128 bits in four words, by value. Every operation goes by words, or by halves of
// 64 bits, with no loop over bits, and is proved against the bit string that the prefix is.

#![tactic(auto)]

mod key; // a key of at most 128 bits

ghost use Rattle.std.specs.Prelude.{◌/◌, ◌%◌, ◌≤◌, ◌<◌, ◌≡◌, false, ◌++◌, length, get_or, drop};
ghost use Rattle.bits.specs.Bits.{lcp, order, is_prefix};
ghost use Rattle.bits.specs.Meet.{meet as meet_of};
ghost use Rattle.bits.specs.Numbers.{bits_of, clear, blank};
ghost use Rattle.prefix.specs.Keys.{word_bits, string_of, Valid};
ghost use Rattle.prefix.specs.Calls.{Validity, Shared, Cut, High, Low, Halves, Parting};

use bits::Meeting;
pub use key::Key;
use std::cmp::Ordering;

// The four words have the highest bits first. A value may be any width and any words: `valid` says
// whether it is a prefix. The fields stand in the order in which they are compared.
#[derive(Clone, Copy, Debug, PartialEq, Eq, PartialOrd, Ord)]
pub struct Prefix {
    pub w0: u32,
    pub w1: u32,
    pub w2: u32,
    pub w3: u32,
    pub width: u32,
}

// A width of at most 128, and no bit set after it.
pub fn valid(p: Prefix) -> bool
    ensures { Validity p result }
{
    if p.width < 64 {
        return clear_after(high(p), p.width) & (low(p) == 0);
    }
    if p.width < 128 {
        return clear_after(low(p), p.width - 64);
    }
    p.width == 128
}

// Bit i of k, the first bit being bit 0. Here and in `begins`, `cut` and `meet` the width stays a clause: they are
// public, and ask their callers no more than before.
pub fn bit(k: Prefix, i: u32) -> bool
    requires { (k.width ≤ 128) × (i < k.width) }
    ensures { result ≡ get_or (string_of k) i false }
{
    if i < 64 {
        return half_bit(high(k), i);
    }
    half_bit(low(k), i - 64)
}

// The length of the longest common prefix.
pub fn shared(a: Prefix, b: Prefix) -> u32
    ensures { Shared a b result }
{
    a.width.min(b.width).min(agree(a, b))
}

// How many of the 128 bits are the same, from the top.
pub fn agree(a: Prefix, b: Prefix) -> u32
    ensures { result ≡ length (lcp (word_bits a) (word_bits b)) }
{
    let n = same_top(high(a), high(b));
    if n < 64 {
        return n;
    }
    64 + same_top(low(a), low(b))
}

// p is a prefix of k.
pub fn begins(k: Prefix, p: Prefix) -> bool
    requires { p.width ≤ 128 }
    ensures { result ≡ is_prefix (string_of p) (string_of k) }
{
    shared(k, p) == p.width
}

// The first n bits of a.
// Stays in two ways: one for both halves, by `keep` of each, takes some 20 instructions more in a store, and its bar
// has not so many left (docs/DESIGN-PASS.md, Speed).
pub fn cut(a: Prefix, n: u32) -> Prefix
    requires { (a.width ≤ 128) × (n ≤ a.width) }
    ensures { Cut a n result }
{
    if n < 64 {
        return of_halves(n, keep(high(a), n), 0);
    }
    of_halves(n, high(a), keep(low(a), n - 64))
}

// Which comes first: at the first differing bit 0 before 1, and a prefix before what extends it.
pub fn compare(a: Prefix, b: Prefix) -> Ordering
    requires { Valid a × Valid b }
    ensures { result ≡ order (string_of a) (string_of b) }
{
    a.cmp(&b)
}

// How the key k stands to the string s: equal, below it, above it, or apart, and with which bit.
pub fn meet(s: Prefix, k: Prefix) -> Meeting
    requires { (s.width ≤ 128) × (k.width ≤ 128) }
    ensures { result ≡ meet_of (string_of s) (string_of k) }
{
    let n = shared(s, k);
    match (n < s.width, n < k.width) {
        (true, true) => Meeting::Apart(bit(k, n)),
        (true, false) => Meeting::Above(bit(s, n)),
        (false, true) => Meeting::Below(bit(k, n)),
        (false, false) => Meeting::Equal,
    }
}

// ---- the two halves, as numbers of 64 bits

// The first 64 bits as one number.
pub fn high(p: Prefix) -> u64
    ensures { High p result }
{
    pair(p.w0, p.w1)
}

// The last 64 bits as one number.
fn low(p: Prefix) -> u64
    ensures { Low p result }
{
    pair(p.w2, p.w3)
}

// The prefix of a width whose first 64 bits are x, and its last y.
fn of_halves(width: u32, x: u64, y: u64) -> Prefix
    ensures { Halves width x y result }
{
    Prefix {
        w0: top(x),
        w1: bottom(x),
        w2: top(y),
        w3: bottom(y),
        width,
    }
}

// Two words as one number, the bits of x above those of y.
pub fn pair(x: u32, y: u32) -> u64
    ensures { bits_of 64 result ≡ bits_of 32 x ++ bits_of 32 y }
{
    4_294_967_296 * (x as u64) + (y as u64)
}

// Whether two halves part after the bit i, at it or before it: 0, 1, or more.
// Stays a number: from it a walk takes its next link by a conditional move, and from an `Option<bool>` by a branch.
pub fn parting(x: u64, y: u64, i: u32) -> u64
    requires { i < 64 }
    ensures { Parting x y i result }
{
    (x ^ y) >> (63 - i)
}

// How many of the top bits of two halves are the same.
fn same_top(x: u64, y: u64) -> u32
    ensures { result ≡ length (lcp (bits_of 64 x) (bits_of 64 y)) }
{
    u64::leading_zeros(x ^ y)
}

// Bit i of the half x.
fn half_bit(x: u64, i: u32) -> bool
    requires { i < 64 }
    ensures { result ≡ get_or (bits_of 64 x) i false }
{
    (x >> (63 - i)) % 2 == 1
}

// No bit of the half x is set after the first n.
fn clear_after(x: u64, n: u32) -> bool
    requires { n < 64 }
    ensures { result ≡ clear (drop n (bits_of 64 x)) }
{
    x << n == 0
}

// The first n bits of the half x, and zeros after them.
fn keep(x: u64, n: u32) -> u64
    ensures { bits_of 64 result ≡ blank n (bits_of 64 x) }
{
    if 64 <= n {
        return x;
    }
    if n == 0 {
        return 0;
    }
    let m = 64 - n;
    (x >> m) << m
}

// The two words of the half x.
fn top(x: u64) -> u32
    ensures { result ≡ x / 4294967296 }
{
    (x / 4_294_967_296) as u32
}

fn bottom(x: u64) -> u32
    ensures { result ≡ x % 4294967296 }
{
    (x % 4_294_967_296) as u32
}
