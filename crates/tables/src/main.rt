// Run cases: the small cases M2 to M8 of paper 01 and their neighbours, through the calls on a lent
// table; the lengths of a table; and the order of the refusals. Each line is a call and what it
// answers; `stdout` beside this folder holds the answers that paper 01 gives.

#![tactic(auto)]

mod calls; // one call, and a line
mod printing; // what a call answers, with its trail

use calls::{answer, fetch, longest, made, remove, sized, store};
use lookup::TRAIL;
use prefix::Prefix;
use std::io;

const TOP: u32 = 0x8000_0000;

fn main(rt: HostRuntime) -> io::Result<()> {
    lengths(&rt)?;
    set_a(&rt)?;
    m7(&rt)?;
    m8(&rt)?;
    freed_room(&rt)?;
    refusals(&rt)
}

// ---- the lengths of a table

fn lengths(rt: &impl Print) -> io::Result<()> {
    sized::<15>(rt)?;
    sized::<16>(rt)?;
    sized::<20>(rt)?;
    sized::<24>(rt)?;
    sized::<524_288>(rt)?;
    sized::<524_296>(rt)
}

// ---- set A: 00 -> 10, 01 -> 20, 0110 -> 30

fn set_a(rt: &impl Print) -> io::Result<()> {
    let mut space = [0u32; 72];
    let table: &mut [u32] = &mut space;
    made(rt, "set A", table)?;
    store(rt, "00", table, of(2, 0), 10)?;
    store(rt, "01", table, of(2, TOP / 2), 20)?;
    store(rt, "0110", table, of(4, 0x6000_0000), 30)?;
    m2_to_m5(rt, table)?;
    neighbours(rt, table)?;
    // M6
    remove(rt, "00", table, of(2, 0))?;
    longest(rt, "0111", table, of(4, 0x7000_0000))?;
    remove(rt, "00", table, of(2, 0))?;
    remove(rt, "0110", table, of(4, 0x6000_0000))?;
    remove(rt, "01", table, of(2, TOP / 2))?;
    longest(rt, "0111", table, of(4, 0x7000_0000))
}

fn m2_to_m5(rt: &impl Print, table: &[u32]) -> io::Result<()> {
    longest(rt, "0111", table, of(4, 0x7000_0000))?;
    longest(rt, "0101", table, of(4, 0x5000_0000))?;
    longest(rt, "1", table, of(1, TOP))?;
    longest(rt, "the empty key", table, of(0, 0))
}

// What lies beside M2 to M5.
fn neighbours(rt: &impl Print, table: &[u32]) -> io::Result<()> {
    longest(rt, "0110", table, of(4, 0x6000_0000))?;
    longest(rt, "01101", table, of(5, 0x6800_0000))?;
    fetch(rt, "01", table, of(2, TOP / 2))?;
    fetch(rt, "0, a branch node", table, of(1, 0))?;
    fetch(rt, "011, no node", table, of(3, 0x6000_0000))
}

// ---- M7 and M8

fn m7(rt: &impl Print) -> io::Result<()> {
    let mut space = [0u32; 24];
    let table: &mut [u32] = &mut space;
    made(rt, "c = 2", table)?;
    store(rt, "0", table, of(1, 0), 1)?;
    store(rt, "10", table, of(2, TOP), 2)?;
    store(rt, "0", table, of(1, 0), 3)?;
    store(rt, "00", table, of(2, 0), 4)?;
    store(rt, "01", table, of(2, TOP / 2), 5)?;
    store(rt, "00", table, of(2, 0), 6)?;
    fetch(rt, "00", table, of(2, 0))
}

fn m8(rt: &impl Print) -> io::Result<()> {
    let mut space = [0u32; 32];
    let table: &mut [u32] = &mut space;
    made(rt, "c = 3", table)?;
    store(rt, "0", table, of(1, 0), 1)?;
    store(rt, "10", table, of(2, TOP), 2)?;
    fetch(rt, "the empty prefix", table, of(0, 0))?;
    store(rt, "the empty prefix", table, of(0, 0), 3)?;
    fetch(rt, "the empty prefix", table, of(0, 0))?;
    store(rt, "11", table, of(2, 0xc000_0000), 4)?;
    remove(rt, "the empty prefix", table, of(0, 0))?;
    longest(rt, "11", table, of(2, 0xc000_0000))
}

// "room freed by a removal serves again"
fn freed_room(rt: &impl Print) -> io::Result<()> {
    let mut space = [0u32; 32];
    let table: &mut [u32] = &mut space;
    made(rt, "c = 3", table)?;
    store(rt, "0", table, of(1, 0), 1)?;
    store(rt, "1", table, of(1, TOP), 2)?;
    store(rt, "00", table, of(2, 0), 3)?;
    remove(rt, "1", table, of(1, TOP))?;
    store(rt, "00", table, of(2, 0), 3)?;
    store(rt, "000", table, of(3, 0), 4)?;
    store(rt, "001", table, of(3, TOP / 4), 5)
}

// ---- the order of the refusals

fn refusals(rt: &impl Print) -> io::Result<()> {
    let mut table = [0u32; 16];
    let mut bytes = [0; TRAIL];
    made(rt, "c = 1", &mut table)?;
    refused(rt, &table)?;
    table[0] = 2;
    answer(rt, "a link past the end", &table, of(0, 0), &mut bytes)
}

// Each call is wrong in one way less than the one before it.
fn refused(rt: &impl Print, table: &[u32]) -> io::Result<()> {
    let short = [0u32; 15];
    let mut few = [0; TRAIL - 1];
    let mut bytes = [0; TRAIL];
    answer(
        rt,
        "15 words, a bad key, 128 bytes",
        &short,
        of(129, 0),
        &mut few,
    )?;
    answer(rt, "a bad key, 128 bytes", table, of(0, 1), &mut few)?;
    answer(rt, "128 bytes", table, of(0, 0), &mut few)?;
    answer(rt, "129 bytes", table, of(0, 0), &mut bytes)
}

// ---- keys

// A key of at most 32 bits. Stays in each of four programs: a crate for what they share (a key of its
// first word, a store that drops its answer) would have to be a library with contracts of its own.
fn of(width: u32, w0: u32) -> Prefix {
    Prefix {
        width,
        w0,
        w1: 0,
        w2: 0,
        w3: 0,
    }
}
