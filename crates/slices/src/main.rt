// Run cases: listing in slices. M9 of paper 01, sizes and outputs at their edges, resume prefixes
// that are not stored, and slices of 1 with edits between them. Each line is a slice and what it
// gives; `stdout` beside this folder holds what paper 01 says of it.

#![tactic(auto)]

use listing::Sliced;
use lookup::TRAIL;
use prefix::Prefix;
use refusals::Refusal;
use std::io;

const TOP: u32 = 0x8000_0000;

fn main(rt: HostRuntime) -> io::Result<()> {
    let mut table = [0u32; 72];
    set_a(&mut table)?;
    m9(&rt, &table)?;
    resumes(&rt, &table)?;
    sizes(&rt, &table)?;
    widest(&rt, &table)?;
    changing(&rt, &mut table)?;
    Ok(())
}

// 00 -> 10, 01 -> 20, 0110 -> 30
fn set_a(table: &mut [u32]) -> io::Result<()> {
    edits::fresh(table).map_err(refused)?;
    store(table, of(2, 0), 10)?;
    store(table, of(2, TOP / 2), 20)?;
    store(table, of(4, 0x6000_0000), 30)?;
    Ok(())
}

fn m9(rt: &impl Print, table: &[u32]) -> io::Result<()> {
    slice(rt, "2 from the start", table, None, 2)?;
    slice(rt, "2 after 01", table, after(2, TOP / 2), 2)
}

fn resumes(rt: &impl Print, table: &[u32]) -> io::Result<()> {
    slice(
        rt,
        "2 after 011, not stored",
        table,
        after(3, 0x6000_0000),
        2,
    )?;
    slice(
        rt,
        "2 after 01101, wider than all",
        table,
        after(5, 0x6800_0000),
        2,
    )?;
    slice(rt, "2 after 1, after all", table, after(1, TOP), 2)?;
    slice(rt, "4 after the empty prefix", table, after(0, 0), 4)?;
    slice(rt, "2 after a bad prefix", table, after(0, 1), 2)?;
    slice(rt, "2 after a prefix of width 129", table, after(129, 0), 2)
}

fn sizes(rt: &impl Print, table: &[u32]) -> io::Result<()> {
    slice(rt, "0", table, None, 0)?;
    slice(rt, "1", table, None, 1)?;
    slice(rt, "4", table, None, 4)?;
    slice(rt, "5, with room for 4", table, None, 5)?;
    slice(rt, "4097", table, None, 4097)?;
    let mut short = [0u32; 23];
    answered(
        rt,
        "4, one word short",
        listing::slice(table, None, 4, &mut short),
    )?;
    let small = [0u32; 15];
    let mut out = [0u32; 6];
    answered(rt, "15 words", listing::slice(&small, None, 1, &mut out))
}

fn widest(rt: &impl Print, table: &[u32]) -> io::Result<()> {
    let mut out = [0u32; 24_576];
    answered(rt, "4096", listing::slice(table, None, 4096, &mut out))
}

// Slices of 1 over a table whose prefixes are removed and added between them.
fn changing(rt: &impl Print, table: &mut [u32]) -> io::Result<()> {
    slice(rt, "1 from the start", table, None, 1)?;
    remove(table, of(2, 0))?;
    store(table, of(2, TOP), 40)?;
    slice(
        rt,
        "1 after 00, which is gone, with 10 new",
        table,
        after(2, 0),
        1,
    )?;
    slice(rt, "1 after 01", table, after(2, TOP / 2), 1)?;
    remove(table, of(4, 0x6000_0000))?;
    slice(
        rt,
        "1 after 0110, which is gone",
        table,
        after(4, 0x6000_0000),
        1,
    )?;
    slice(rt, "1 after 10", table, after(2, TOP), 1)?;
    Ok(())
}

// ---- one call, a line, and a line for each entry

fn slice(
    rt: &impl Print,
    text: &str,
    table: &[u32],
    resume: Option<Prefix>,
    size: u32,
) -> io::Result<()> {
    let mut out = [0u32; 24];
    let r = listing::slice(table, resume, size, &mut out);
    answered(rt, text, r)?;
    let given = r.map_or(0, |s| s.given as usize);
    for e in out.chunks_exact(6).take(given) {
        println!(rt; "  {:08x}/{} -> {}", e[0], e[4], e[5])?;
    }
    Ok(())
}

fn answered(rt: &impl Print, text: &str, r: Result<Sliced, Refusal>) -> io::Result<()> {
    match r {
        Ok(s) => {
            let more = if s.more { "more" } else { "no more" };
            println!(rt;
                "slice of {text}: gives {}, {more}, count {}",
                s.given, s.count
            )
        }
        Err(e) => println!(rt; "slice of {text}: {e}"),
    }
}

fn store(table: &mut [u32], k: Prefix, zone: u32) -> io::Result<()> {
    edits::store(table, k, zone, &mut [0; TRAIL]).map_err(refused)?;
    Ok(())
}

fn remove(table: &mut [u32], k: Prefix) -> io::Result<()> {
    edits::remove(table, k, &mut [0; TRAIL]).map_err(refused)?;
    Ok(())
}

// A refusal where a case wants none.
fn refused(_e: Refusal) -> io::Error {
    io::Error::other("a case's table is refused")
}

// ---- keys

fn after(width: u32, w0: u32) -> Option<Prefix> {
    Some(of(width, w0))
}

// A key of at most 32 bits. Stays in each of four programs: a crate for what they share (a key of its
// first word, a store that drops its answer) would have to be a library with contracts of its own.
fn of(width: u32, w0: u32) -> Prefix {
    Prefix {
        width,
        w0,
        w1: 0,
        w2: 0,
        w3: 0,
    }
}
