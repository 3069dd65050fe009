// An ageing run: 100,000 edits with a fixed seed on a small table that is nearly full, and then each
// key's path compared with that in a table built afresh from the same set. Age adds nothing to a
// path, so the numbers on the last two lines are equal.

#![tactic(auto)]

ghost use Rattle.std.specs.Prelude.{◌<◌, ◌≤◌};

use lookup::TRAIL;
use prefix::Prefix;
use refusals::Refusal;
use std::io;

// 64 records, and keys of at most 7 bits: 255 of them.
const WORDS: usize = 520;

const WIDEST: u32 = 7;

const EDITS: u32 = 100_000;

// What the edits answered.
#[derive(Clone, Copy, Default)]
struct Tally {
    added: u32,
    replaced: u32,
    full: u32,
    removed: u32,
    absent: u32,
    other: u32,
}

fn main(rt: HostRuntime) -> io::Result<()> {
    let mut old = [0u32; WORDS];
    let mut new = [0u32; WORDS];
    edits::fresh(&mut old).map_err(refused)?;
    edits::fresh(&mut new).map_err(refused)?;
    report(&rt, age(&mut old))?;
    println!(rt; "stored now: {}", rebuild(&old, &mut new).map_err(refused)?)?;
    println!(rt; "paths compared: 255")?;
    println!(rt; "paths that are equal: {}", compare(&old, &new))?;
    Ok(())
}

// A refusal where a case wants none.
fn refused(_e: Refusal) -> io::Error {
    io::Error::other("a case's table is refused")
}

fn report(rt: &impl Print, t: Tally) -> io::Result<()> {
    println!(rt; "edits: {EDITS}")?;
    println!(rt; "added: {}", t.added)?;
    println!(rt; "replaced: {}", t.replaced)?;
    println!(rt; "full: {}", t.full)?;
    println!(rt; "removed: {}", t.removed)?;
    println!(rt; "absent: {}", t.absent)?;
    println!(rt; "other: {}", t.other)
}

// ---- the edits

// One edit in three is a remove.
fn age(table: &mut [u32]) -> Tally {
    let mut t = Tally::default();
    let mut seed: u32 = 2026;
    for _ in 0..EDITS {
        let a = random(seed);
        let b = random(a);
        seed = random(b);
        let k = key_of(a / 65536 % (WIDEST + 1), b / 65536);
        let n = if seed / 65536 % 3 == 0 {
            t.removed(table, k)
        } else {
            t.stored(table, k, b)
        };
        *n = n.wrapping_add(1);
    }
    t
}

impl Tally {
    // Stores, and gives the count of such answers.
    fn stored(&mut self, table: &mut [u32], k: Prefix, zone: u32) -> &mut u32 {
        match edits::store(table, k, zone, &mut [0; TRAIL]) {
            Ok(x) if x.value.is_none() => &mut self.added,
            Ok(_) => &mut self.replaced,
            Err(Refusal::Full(_)) => &mut self.full,
            Err(_) => &mut self.other,
        }
    }

    // Removes, and gives the count of such answers.
    fn removed(&mut self, table: &mut [u32], k: Prefix) -> &mut u32 {
        match edits::remove(table, k, &mut [0; TRAIL]) {
            Ok(_) => &mut self.removed,
            Err(Refusal::Absent(_)) => &mut self.absent,
            Err(_) => &mut self.other,
        }
    }
}

fn random(seed: u32) -> u32 {
    ((seed as u64 * 1_103_515_245 + 12_345) % 2_147_483_648) as u32
}

// The key of this width whose bits are the lowest of v.
fn key_of(width: u32, v: u32) -> Prefix
    requires { width ≤ 32 }
{
    Prefix {
        width,
        w0: v.checked_shl(32 - width).unwrap_or(0),
        w1: 0,
        w2: 0,
        w3: 0,
    }
}

// ---- the comparison

// Stores in `new` whatever `old` has, and answers how many keys that is.
fn rebuild(old: &[u32], new: &mut [u32]) -> Result<u32, Refusal> {
    let mut trail = [0; TRAIL];
    let mut n: u32 = 0;
    for i in 1..256 {
        if let Ok(x) = lookup::fetch(old, nth(i), &mut trail) {
            edits::store(new, nth(i), x.value, &mut trail)?;
            n = n.wrapping_add(1);
        }
    }
    Ok(n)
}

// How many keys have one path, and one answer, in both.
fn compare(old: &[u32], new: &[u32]) -> usize {
    (1..256).filter(|i| same_path(old, new, nth(*i))).count()
}

// The key whose bits follow the first 1 of i: each of at most 7 bits once, for i from 1 to 255.
fn nth(i: u32) -> Prefix
    requires { 0 < i }
{
    key_of(i.ilog2(), i)
}

// (two refusals that are equal are no path)
fn same_path(old: &[u32], new: &[u32], k: Prefix) -> bool {
    let mut one = [0; TRAIL];
    let mut two = [0; TRAIL];
    let a = lookup::longest_match(old, k, &mut one);
    let b = lookup::longest_match(new, k, &mut two);
    a.is_ok() && a == b && one == two
}
