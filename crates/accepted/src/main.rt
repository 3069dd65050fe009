// Run cases of the image checker and the image lookup: two images that are accepted, what they answer,
// and their like with one byte changed to each other value, cut short, and one byte longer. For each
// byte of which some other value is accepted, a line says how many are; `stdout` beside this folder
// holds what a separate model of paper 01 gives.

#![tactic(auto)]

use lookup::TRAIL;
use prefix::Prefix;
use refusals::Refusal;
use std::io;

const TOP: u32 = 0x8000_0000;

fn main(rt: HostRuntime) -> io::Result<()> {
    example(&rt)?;
    set_a(&rt)?;
    Ok(())
}

// "one prefix, bit 0, zone 5, epoch 0"
fn example(rt: &impl Print) -> io::Result<()> {
    let mut space = [0u32; 16];
    let table: &mut [u32] = &mut space;
    edits::fresh(table).map_err(refused)?;
    store(table, of(1, 0), 5)?;
    println!(rt; "0 -> 5, epoch 0")?;
    tried(rt, table, 0)?;
    Ok(())
}

// 00 -> 10, 01 -> 20, 0110 -> 30
fn set_a(rt: &impl Print) -> io::Result<()> {
    let mut space = [0u32; 72];
    let table: &mut [u32] = &mut space;
    edits::fresh(table).map_err(refused)?;
    store(table, of(2, 0), 10)?;
    store(table, of(2, TOP / 2), 20)?;
    store(table, of(4, 0x6000_0000), 30)?;
    println!(rt; "set A, epoch 1700000000")?;
    tried(rt, table, 1_700_000_000)?;
    Ok(())
}

// The image of the table, as it is and changed.
fn tried(rt: &impl Print, table: &[u32], epoch: u64) -> io::Result<()> {
    let mut space = [0u8; 256];
    let image: &mut [u8] = &mut space;
    match image_write::write(table, epoch, image) {
        Ok(n) => {
            if n < image.len() {
                asked(rt, &image[..n])?;
                cut(rt, &image[..n + 1])?;
                changed(rt, &mut image[..n])?;
            }
            Ok(())
        }
        Err(_) => println!(rt; "not written"),
    }
}

// ---- accepted

fn asked(rt: &impl Print, image: &[u8]) -> io::Result<()> {
    verdict(rt, "whole", image)?;
    look(rt, "0000..", image, 0, 0)?;
    look(rt, "0011..", image, 0x3fff_ffff, 0xffff_ffff)?;
    look(rt, "0100..", image, 0x4000_0000, 0)?;
    look(rt, "0110..", image, 0x6123_4567, 0)?;
    look(rt, "0111..", image, 0x7fff_ffff, 0xffff_ffff)?;
    look(rt, "1000..", image, TOP, 0)?;
    look(rt, "1111..", image, 0xffff_ffff, 0xffff_ffff)
}

fn look(rt: &impl Print, text: &str, image: &[u8], w0: u32, rest: u32) -> io::Result<()> {
    match image_lookup::look(image, [w0, rest, rest, rest]) {
        Ok(Some(zone)) => println!(rt; "{text}: zone {zone}"),
        Ok(None) => println!(rt; "{text}: no data"),
        Err(e) => println!(rt; "{text}: {e}"),
    }
}

// ---- too short, too long

// `longer` is the image and one byte more.
fn cut(rt: &impl Print, longer: &[u8]) -> io::Result<()> {
    let Some((_, image)) = longer.split_last() else {
        return Ok(());
    };
    let yes = (0..image.len()).filter(|n| accepted(&image[..*n])).count();
    println!(rt; "shorter ones accepted: {yes}")?;
    verdict(rt, "one byte longer", longer)?;
    match image.split_first() {
        Some((_, rest)) => verdict(rt, "one byte off the front", rest),
        None => Ok(()),
    }
}

// ---- one byte changed

fn changed(rt: &impl Print, image: &mut [u8]) -> io::Result<()> {
    for i in 0..image.len() {
        let yes = others(image, i);
        if yes != 0 {
            println!(rt; "byte {i}: other values accepted: {yes}")?;
        }
    }
    Ok(())
}

// How many other values of the byte i are accepted. Stays a loop: each turn writes the byte first.
fn others(image: &mut [u8], i: usize) -> usize {
    if image.len() <= i {
        return 0;
    }
    let b = image[i];
    let mut yes = 0;
    for v in 0..=255 {
        image[i] = v;
        if v != b && accepted(image) {
            yes += 1;
        }
    }
    image[i] = b;
    yes
}

fn accepted(bytes: &[u8]) -> bool {
    image_verify::verify(bytes).is_ok()
}

// ---- printing

// What the checker answers.
fn verdict(rt: &impl Print, text: &str, bytes: &[u8]) -> io::Result<()> {
    match image_verify::verify(bytes) {
        Ok(()) => println!(rt; "{text}: accepted"),
        Err(e) => println!(rt; "{text}: {e}"),
    }
}

fn store(table: &mut [u32], k: Prefix, zone: u32) -> io::Result<()> {
    edits::store(table, k, zone, &mut [0; TRAIL]).map_err(refused)?;
    Ok(())
}

// A refusal where a case wants none.
fn refused(_e: Refusal) -> io::Error {
    io::Error::other("a case's table is refused")
}

// A key of at most 32 bits. Stays in each of four programs: a crate for what they share (a key of its
// first word, a store that drops its answer) would have to be a library with contracts of its own.
fn of(width: u32, w0: u32) -> Prefix {
    Prefix {
        width,
        w0,
        w1: 0,
        w2: 0,
        w3: 0,
    }
}
