// Keys at their edges: the empty one, the ends of words, and the widths 128 and 129.
use crate::printing::{Met, Shown};
use prefix::Prefix;
use std::cmp::Ordering;
use std::io;

const ONES: u32 = 0xffff_ffff;

const TOP: u32 = 0x8000_0000;

// ---- valid

// "Widths 128 and 129", and the widths at the ends of words.
pub(crate) fn widths(rt: &impl Print) -> io::Result<()> {
    for p in [
        of(0, 0, 0, 0, 0),
        of(32, ONES, 0, 0, 0),
        of(64, ONES, ONES, 0, 0),
        of(96, ONES, ONES, ONES, 0),
        of(127, ONES, ONES, ONES, ONES - 1),
        of(128, ONES, ONES, ONES, ONES),
        of(129, 0, 0, 0, 0),
        of(129, ONES, ONES, ONES, ONES),
        of(ONES, 0, 0, 0, 0),
    ] {
        validity(rt, p)?;
    }
    Ok(())
}

// One bit set just after the width, and the lowest of all.
pub(crate) fn bits_after(rt: &impl Print) -> io::Result<()> {
    for p in [
        of(0, TOP, 0, 0, 0),
        of(31, 1, 0, 0, 0),
        of(32, 0, TOP, 0, 0),
        of(64, 0, 0, TOP, 0),
        of(96, 0, 0, 0, TOP),
        of(127, 0, 0, 0, 1),
        of(0, 0, 0, 0, 1),
        of(33, ONES, TOP, 0, 0),
    ] {
        validity(rt, p)?;
    }
    Ok(())
}

fn validity(rt: &impl Print, p: Prefix) -> io::Result<()> {
    let is = if prefix::valid(p) { "is" } else { "is not" };
    println!(rt; "{} {is} valid", Shown(p))
}

// ---- bit

pub(crate) fn bits_at(rt: &impl Print) -> io::Result<()> {
    let p = of(128, TOP, 1, TOP, 1);
    for i in [0, 1, 31, 32, 62, 63, 64, 95, 96, 126, 127] {
        if p.width <= 128 && i < p.width {
            println!(rt; "{} at {i}: {}", Shown(p), u8::from(prefix::bit(p, i)))?;
        }
    }
    Ok(())
}

// ---- shared, begins, compare, meet

pub(crate) fn pairs(rt: &impl Print) -> io::Result<()> {
    let empty = of(0, 0, 0, 0, 0);
    let zero = of(1, 0, 0, 0, 0);
    let one = of(1, TOP, 0, 0, 0);
    let word = of(32, ONES, 0, 0, 0);
    let long = of(33, ONES, TOP, 0, 0);
    let other = of(33, ONES, 0, 0, 0);
    let all = of(128, ONES, ONES, ONES, ONES);
    let last = of(128, ONES, ONES, ONES, ONES - 1);
    for (s, k) in [
        (empty, empty),
        (empty, all),
        (zero, one),
        (one, zero),
        (word, long),
        (long, other),
        (other, word),
        (last, all),
        (all, all),
    ] {
        pair(rt, s, k)?;
    }
    Ok(())
}

fn pair(rt: &impl Print, s: Prefix, k: Prefix) -> io::Result<()> {
    if prefix::valid(s) && prefix::valid(k) {
        print!(rt;
            "{} and {}: share {}, ",
            Shown(s),
            Shown(k),
            prefix::shared(s, k)
        )?;
        let begun = if prefix::begins(k, s) {
            "prefix"
        } else {
            "no prefix"
        };
        let order = ordered(prefix::compare(s, k));
        println!(rt; "{begun}, {order}, {}", Met(prefix::meet(s, k)))?;
    }
    Ok(())
}

fn ordered(o: Ordering) -> &'static str {
    match o {
        Ordering::Less => "before",
        Ordering::Equal => "same",
        Ordering::Greater => "after",
    }
}

// ---- cut

pub(crate) fn cuts(rt: &impl Print) -> io::Result<()> {
    let p = of(128, ONES, ONES, ONES, ONES);
    for n in [0, 1, 31, 32, 33, 64, 95, 96, 127, 128] {
        if p.width <= 128 && n <= p.width {
            println!(rt; "first {n}: {}", Shown(prefix::cut(p, n)))?;
        }
    }
    Ok(())
}

// ---- a key of its words

fn of(width: u32, w0: u32, w1: u32, w2: u32, w3: u32) -> Prefix {
    Prefix {
        width,
        w0,
        w1,
        w2,
        w3,
    }
}
