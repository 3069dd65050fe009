// Run cases: lookups in images. The paper's image of 179 bytes and that of the empty set, the image of
// 00 -> 10, 01 -> 20, 0110 -> 30, and one damaged image for each thing that a lookup can meet. Each
// line is a call and its answer; `stdout` beside this folder holds what paper 01 says of the images,
// and what `look_on` says of the damaged ones.

#![tactic(auto)]

use std::io;

const TOP: u32 = 0x8000_0000;

const ONES: u32 = 0xffff_ffff;

fn main(rt: HostRuntime) -> io::Result<()> {
    whole(&rt)?;
    empty(&rt)?;
    three(&rt)?;
    records(&rt)?;
    entries(&rt)?;
    ends(&rt)?;
    Ok(())
}

// "one prefix, bit 0, zone 5, epoch 0"
fn example() -> [u8; 179] {
    *b"\x00\x00\x11\x00\x00\x01\x00\x00\x00\x00\x00\x00\x00\x00\x00\x00\x00\x00\x00\x00\x00\x00\xC1\x05\
        \xAB\xCD\xEFMaxMind.com\
        \xE7Jnode_count\xC1\x01\
        Krecord_size\xA1\x18\
        Jip_version\xA1\x06\
        Mdatabase_typeLGround-Cells\
        \x5Bbinary_format_major_version\xA1\x02\
        \x5Bbinary_format_minor_version\xA0\
        Kbuild_epoch\x00\x02"
}

fn whole(rt: &impl Print) -> io::Result<()> {
    let image = example();
    framed(rt, "example", &image)?;
    look(rt, "example, 0 and zeros", &image, 0, 0)?;
    look(rt, "example, 0 and ones", &image, TOP - 1, ONES)?;
    look(rt, "example, 1 and zeros", &image, TOP, 0)?;
    Ok(())
}

// "The empty set: N = 1, both records 1, no data section."
fn empty(rt: &impl Print) -> io::Result<()> {
    let image =
        *b"\x00\x00\x01\x00\x00\x01\x00\x00\x00\x00\x00\x00\x00\x00\x00\x00\x00\x00\x00\x00\x00\x00\
        \xAB\xCD\xEFMaxMind.com\
        \xE7Jnode_count\xC1\x01\
        Krecord_size\xA1\x18\
        Jip_version\xA1\x06\
        Mdatabase_typeLGround-Cells\
        \x5Bbinary_format_major_version\xA1\x02\
        \x5Bbinary_format_minor_version\xA0\
        Kbuild_epoch\x00\x02";
    framed(rt, "empty set", &image)?;
    look(rt, "empty set, zeros", &image, 0, 0)?;
    look(rt, "empty set, ones", &image, ONES, ONES)?;
    Ok(())
}

fn three(rt: &impl Print) -> io::Result<()> {
    let image =
        *b"\x00\x00\x01\x00\x00\x04\x00\x00\x14\x00\x00\x02\x00\x00\x16\x00\x00\x03\x00\x00\x18\x00\x00\x16\x00\x00\x00\x00\x00\x00\x00\x00\x00\x00\x00\x00\x00\x00\x00\x00\xC1\x0A\xC1\x14\xC1\x1E\
        \xAB\xCD\xEFMaxMind.com\
        \xE7Jnode_count\xC1\x04\
        Krecord_size\xA1\x18\
        Jip_version\xA1\x06\
        Mdatabase_typeLGround-Cells\
        \x5Bbinary_format_major_version\xA1\x02\
        \x5Bbinary_format_minor_version\xA0\
        Kbuild_epoch\x04\x02eS\xF1\x00";
    framed(rt, "three prefixes", &image)?;
    look(rt, "three prefixes, 00", &image, 0, 0)?;
    look(rt, "three prefixes, 010", &image, 0x4000_0000, 0)?;
    look(rt, "three prefixes, 0110", &image, 0x6000_0000, 0)?;
    look(rt, "three prefixes, 0111", &image, 0x7000_0000, ONES)?;
    look(rt, "three prefixes, 1", &image, TOP, 0)?;
    Ok(())
}

// Records that no image has: N + 1, N + 15, one that leads back to the top, one past the last byte.
fn records(rt: &impl Print) -> io::Result<()> {
    let mut image = example();
    image[2] = 2;
    look(rt, "record N + 1", &image, 0, 0)?;
    image[2] = 16;
    look(rt, "record N + 15", &image, 0, 0)?;
    image[2] = 0;
    look(rt, "record that is its own node", &image, 0, 0)?;
    image[2] = 179;
    look(rt, "record past the last byte", &image, 0, 0)?;
    Ok(())
}

// Control bytes that are no uint32's, a number that ends with the last byte, and one that does not.
fn entries(rt: &impl Print) -> io::Result<()> {
    let mut image = example();
    image[22] = 0xBF;
    look(rt, "control byte BF", &image, 0, 0)?;
    image[22] = 0xC5;
    look(rt, "control byte C5", &image, 0, 0)?;
    image[22] = 0xC0;
    look(rt, "control byte C0", &image, 0, 0)?;
    image[2] = 172;
    image[177] = 0xC1;
    look(rt, "number of the last byte", &image, 0, 0)?;
    image[177] = 0xC2;
    look(rt, "number past the last byte", &image, 0, 0)?;
    Ok(())
}

// Images cut short, a node count that the tree has no room for, a marker that is none.
fn ends(rt: &impl Print) -> io::Result<()> {
    let mut image = example();
    cut(rt, "no byte", &image, 0)?;
    cut(rt, "176 bytes", &image, 176)?;
    cut(rt, "178 bytes", &image, 178)?;
    image[51] = 30;
    look(rt, "30 nodes", &image, 0, 0)?;
    image[51] = 1;
    image[24] = 0;
    framed(rt, "another marker", &image)?;
    look(rt, "another marker", &image, 0, 0)?;
    Ok(())
}

fn cut(rt: &impl Print, text: &str, image: &[u8], n: usize) -> io::Result<()> {
    match image.get(..n) {
        Some(part) => look(rt, text, part, 0, 0),
        None => Ok(()),
    }
}

// ---- one call, and a line

// The address of a first word, the others all w.
fn look(rt: &impl Print, text: &str, image: &[u8], first: u32, w: u32) -> io::Result<()> {
    match image_lookup::look(image, [first, w, w, w]) {
        Ok(Some(zone)) => println!(rt; "look, {text}: zone {zone}"),
        Ok(None) => println!(rt; "look, {text}: no data"),
        Err(e) => println!(rt; "look, {text}: {e}"),
    }
}

fn framed(rt: &impl Print, text: &str, image: &[u8]) -> io::Result<()> {
    let Some(x) = metadata::frame(image) else {
        return println!(rt; "end of {text}: none");
    };
    println!(rt;
        "end of {text}: nodes {}, marker at {}, epoch {}",
        x.nodes, x.start, x.epoch
    )
}
