// Run cases of the image writer: paper 01's example and the empty set, a hidden zone number, widths 0
// and 128, equal halves, zone numbers and epochs at each byte's edge, an output one byte short, and
// refused tables. Each line is a table and the bytes written; `stdout` beside this folder holds what a
// separate model of paper 01 gives.

#![tactic(auto)]

ghost use Rattle.std.specs.Prelude.{◌≤◌};

use lookup::TRAIL;
use prefix::Prefix;
use refusals::Refusal;
use std::io;

const TOP: u32 = 0x8000_0000;

// What the output holds before the call.
const BEFORE: u8 = 0xee;

// Bytes of output, more than any of these images needs.
const ROOM: usize = 1200;

fn main(rt: HostRuntime) -> io::Result<()> {
    example(&rt)?;
    empty(&rt)?;
    hidden(&rt)?;
    halves(&rt)?;
    widths(&rt)?;
    numbers(&rt)?;
    refusals(&rt)?;
    Ok(())
}

// "one prefix, bit 0, zone 5"
fn example(rt: &impl Print) -> io::Result<()> {
    let mut space = [0u32; 16];
    let table: &mut [u32] = &mut space;
    edits::fresh(table).map_err(refused)?;
    store(table, of(1, 0), 5)?;
    show::<ROOM>(rt, "0 -> 5, epoch 0", table, 0)?;
    show::<ROOM>(rt, "0 -> 5, epoch 1", table, 1)?;
    show::<ROOM>(rt, "0 -> 5, epoch 255", table, 255)?;
    show::<ROOM>(rt, "0 -> 5, epoch 256", table, 256)?;
    show::<ROOM>(rt, "0 -> 5, epoch 2^64 - 1", table, 0xffff_ffff_ffff_ffff)?;
    // one byte less than it needs, and as many
    show::<178>(rt, "178 bytes of output", table, 0)?;
    show::<179>(rt, "179 bytes of output", table, 0)?;
    Ok(())
}

// "The empty set: N = 1, both records 1, no data section."
fn empty(rt: &impl Print) -> io::Result<()> {
    let mut space = [0u32; 16];
    let table: &mut [u32] = &mut space;
    edits::fresh(table).map_err(refused)?;
    show::<ROOM>(rt, "the empty set", table, 0)?;
    store(table, of(0, 0), 7)?;
    show::<ROOM>(rt, "the empty prefix -> 7", table, 0)?;
    Ok(())
}

// A number that is stored and that no record uses.
fn hidden(rt: &impl Print) -> io::Result<()> {
    let mut space = [0u32; 32];
    let table: &mut [u32] = &mut space;
    edits::fresh(table).map_err(refused)?;
    store(table, of(0, 0), 7)?;
    store(table, of(1, 0), 5)?;
    show::<ROOM>(rt, "7 over 0", table, 0)?;
    store(table, of(1, TOP), 6)?;
    show::<ROOM>(rt, "7 hidden by 0 and 1", table, 0)?;
    Ok(())
}

// "Equal halves are not merged."
fn halves(rt: &impl Print) -> io::Result<()> {
    let mut space = [0u32; 32];
    let table: &mut [u32] = &mut space;
    edits::fresh(table).map_err(refused)?;
    store(table, of(2, 0), 9)?;
    store(table, of(2, TOP / 2), 9)?;
    show::<ROOM>(rt, "equal halves", table, 0)?;
    Ok(())
}

fn widths(rt: &impl Print) -> io::Result<()> {
    let mut space = [0u32; 32];
    let table: &mut [u32] = &mut space;
    edits::fresh(table).map_err(refused)?;
    store(table, of(0, 0), 300)?;
    store(
        table,
        Prefix {
            width: 128,
            w0: 0xdead_beef,
            w1: 0,
            w2: 0xffff_ffff,
            w3: 1,
        },
        1,
    )?;
    show::<ROOM>(rt, "widths 0 and 128", table, 0)?;
    Ok(())
}

// Zone numbers of 0 to 4 bytes, each side of the edges.
fn numbers(rt: &impl Print) -> io::Result<()> {
    let mut space = [0u32; 136];
    let table: &mut [u32] = &mut space;
    edits::fresh(table).map_err(refused)?;
    store(table, of(3, 0), 0xffff_ffff)?;
    store(table, of(3, 0x2000_0000), 256)?;
    store(table, of(3, 0x4000_0000), 0)?;
    store(table, of(3, 0x6000_0000), 65_536)?;
    store(table, of(3, TOP), 255)?;
    store(table, of(3, 0xa000_0000), 0x0100_0000)?;
    store(table, of(3, 0xc000_0000), 65_535)?;
    store(table, of(3, 0xe000_0000), 255)?;
    show::<ROOM>(rt, "zone numbers at the edges", table, 1_700_000_000)?;
    Ok(())
}

fn refusals(rt: &impl Print) -> io::Result<()> {
    let mut fifteen = [0u32; 15];
    show::<ROOM>(rt, "15 words", &fifteen, 0)?;
    fifteen[0] = 1;
    let mut space = [0u32; 24];
    edits::fresh(&mut space).map_err(refused)?;
    store(&mut space, of(1, 0), 5)?;
    // the record in use says that it has a left side
    space[13] = 1;
    show::<ROOM>(rt, "a node under itself", &space, 0)?;
    Ok(())
}

// ---- the calls

fn store(table: &mut [u32], k: Prefix, zone: u32) -> io::Result<()> {
    edits::store(table, k, zone, &mut [0; TRAIL]).map_err(refused)?;
    Ok(())
}

// A refusal where a case wants none.
fn refused(_e: Refusal) -> io::Error {
    io::Error::other("a case's table is refused")
}

// One case, on an output of N bytes: its name, what the call answers, whether the bytes that are not
// the image's are as they were, and the image.
fn show<const N: usize>(rt: &impl Print, text: &str, table: &[u32], epoch: u64) -> io::Result<()>
    requires { N ≤ 1000000 }
{
    let mut out = [BEFORE; N];
    print!(rt; "{text}: ")?;
    match image_write::write(table, epoch, &mut out) {
        Ok(n) => {
            let (image, rest) = out.split_at(n.min(out.len()));
            print!(rt; "wrote {n}")?;
            left(rt, rest)?;
            dump(rt, image)
        }
        Err(e) => {
            print!(rt; "{e}")?;
            if let Refusal::ShortOut(n) = e {
                print!(rt; ", needs {n}")?;
            }
            left(rt, &out)?;
            println!(rt)
        }
    }
}

// ---- printing

// Whether the bytes are as they were before the call.
fn left(rt: &impl Print, rest: &[u8]) -> io::Result<()> {
    rt.print(if rest.iter().all(|b| *b == BEFORE) {
        ", the rest as it was"
    } else {
        ", and the rest changed"
    })
}

// The bytes, in hex, 32 to a line.
fn dump(rt: &impl Print, image: &[u8]) -> io::Result<()> {
    for line in image.chunks(32) {
        print!(rt; "\n ")?;
        for b in line {
            print!(rt; " {b:02x}")?;
        }
    }
    println!(rt)
}

// A key of at most 32 bits. Stays in each of four programs: a crate for what they share (a key of its
// first word, a store that drops its answer) would have to be a library with contracts of its own.
fn of(width: u32, w0: u32) -> Prefix {
    Prefix {
        width,
        w0,
        w1: 0,
        w2: 0,
        w3: 0,
    }
}
