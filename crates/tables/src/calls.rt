// One call, and a line: each makes the call, and prints its text and what it answers.
ghost use Rattle.std.specs.Prelude.{◌≤◌};

use crate::printing::told;
use lookup::TRAIL;
use prefix::Prefix;
use std::io;

pub(crate) fn made(rt: &impl Print, text: &str, table: &mut [u32]) -> io::Result<()> {
    match edits::fresh(table) {
        Ok(()) => println!(rt; "{text}: fresh"),
        Err(e) => println!(rt; "{text}: {e}"),
    }
}

// A table of N words.
pub(crate) fn sized<const N: usize>(rt: &impl Print) -> io::Result<()>
    requires { N ≤ 1000000 }
{
    print!(rt; "{N} ")?;
    made(rt, "words", &mut [0; N])
}

pub(crate) fn store(
    rt: &impl Print,
    text: &str,
    table: &mut [u32],
    k: Prefix,
    zone: u32,
) -> io::Result<()> {
    let mut bytes = [0; TRAIL];
    print!(rt; "store {text}: ")?;
    let r = edits::store(table, k, zone, &mut bytes);
    told(rt, r, &bytes, |old| match old {
        None => print!(rt; "added"),
        Some(z) => print!(rt; "replaced {z}"),
    })
}

pub(crate) fn remove(rt: &impl Print, text: &str, table: &mut [u32], k: Prefix) -> io::Result<()> {
    let mut bytes = [0; TRAIL];
    print!(rt; "remove {text}: ")?;
    let r = edits::remove(table, k, &mut bytes);
    told(rt, r, &bytes, |zone| print!(rt; "removed {zone}"))
}

pub(crate) fn fetch(rt: &impl Print, text: &str, table: &[u32], k: Prefix) -> io::Result<()> {
    let mut bytes = [0; TRAIL];
    print!(rt; "fetch {text}: ")?;
    let r = lookup::fetch(table, k, &mut bytes);
    told(rt, r, &bytes, |zone| print!(rt; "{zone}"))
}

pub(crate) fn longest(rt: &impl Print, text: &str, table: &[u32], k: Prefix) -> io::Result<()> {
    let mut bytes = [0; TRAIL];
    print!(rt; "longest match of {text}: ")?;
    let r = lookup::longest_match(table, k, &mut bytes);
    told(rt, r, &bytes, |found| match found {
        None => print!(rt; "no match"),
        Some(m) => print!(rt; "{} at width {}", m.zone, m.width),
    })
}

// What fetch answers, by its name alone.
pub(crate) fn answer(
    rt: &impl Print,
    text: &str,
    table: &[u32],
    k: Prefix,
    out: &mut [u8],
) -> io::Result<()> {
    match lookup::fetch(table, k, out) {
        Ok(_) => println!(rt; "{text}: Found"),
        Err(e) => println!(rt; "{text}: {e}"),
    }
}
