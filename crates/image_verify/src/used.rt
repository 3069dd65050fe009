// Which data entries are used: every one of them by some record, and no record means a byte where none
// starts. A bitmap of the whole data section would have to be lent; one of a stretch is local, and the
// tree's records are read again for each stretch.
ghost use Rattle.std.specs.Prelude.{◌+◌, ◌*◌, ◌≤◌, ◌<◌, ◌≡◌, ◌&&◌, ◌||◌, ltb, eqb, length};
ghost use Rattle.marks.specs.Marks.{has, Marks};
ghost use Rattle.image_verify.specs.Verifying.{uses_on, exact_on};
ghost use Rattle.image_verify.specs.Starts.{Flipped};

use crate::data::Section;

// The bytes of a stretch: 32 for each word of the bitmap.
const STRETCH: usize = 131072;

// The records of the tree mean the entries' starts: every one of these, and nothing else. For each
// stretch of the data section the bytes that some record means are marked, the marks of the entries'
// starts are turned over, and then no mark may be left.
pub(crate) fn exact(section: &Section, n: u32) -> bool
    requires { 6 * n + 16 ≤ section.now.end }
    ensures { result ≡ exact_on section.now.bytes.now n section.now.end }
{
    let start = 6 * (n as usize) + 16;
    let mut marks = [0u32; 4096];
    let mut base = start;
    let mut at = start;
    // Stays a while: tried as a `for` over the bytes a stretch apart, and the proof of it did not close: the last
    // step of one goes past the end, where the loop's fact is of no bytes.
    while base < section.end {
        let span = Span {
            base,
            stop: base + STRETCH.min(section.end - base),
        };
        mark_records(section.bytes, n, span, &mut marks);
        at = flip_starts(section, at, span, &mut marks);
        if !marks::blank(&marks) {
            return false;
        }
        base = span.stop;
    }
    true
}

// The bytes of a stretch, from `base` on up to `stop`: no more than one bitmap has marks for.
#[derive(Clone, Copy)]
struct Span {
    base: usize,
    stop: usize,
    ghost short: { stop ≤ base + 131072 },
}

// Marks each byte of a stretch that some record of the tree means.
fn mark_records(bytes: &[u8], n: u32, span: Span, marks: &mut [u32; 4096])
    requires { (6 * n + 16 ≤ span.base) × (span.base ≤ length bytes.now) }
    ensures { Marks marks.new (λ e. has marks.old e || (ltb (span.base + e) span.stop && uses_on bytes.now n (span.base + e))) }
{
    let count = 2 * (n as usize);
    // (a record r that is no node means the byte r + 5n)
    let tree = 5 * (n as usize);
    for j in 0..count {
        let r = metadata::record_at(bytes, 3 * j) as usize;
        mark_inside(r + tree, span, marks);
    }
}

// Marks the byte p if it is one of the stretch.
fn mark_inside(p: usize, span: Span, marks: &mut [u32; 4096])
    ensures { Marks marks.new (λ e. has marks.old e || (ltb (span.base + e) span.stop && eqb p (span.base + e))) }
{
    if span.base <= p && p < span.stop {
        marks::add(marks, p - span.base);
    }
}

// Turns the marks of the entries' starts over, from `first` on up to the stretch's end, and gives the
// first start after it.
fn flip_starts(section: &Section, first: usize, span: Span, marks: &mut [u32; 4096]) -> usize
    requires { (span.base ≤ first) × (first ≤ section.now.end) × (span.stop ≤ section.now.end) }
    ensures { Flipped section.now.bytes.now first section.now.end span.base span.stop marks.old result marks.new }
{
    let mut at = first;
    // Stays a while: it goes from start to start, and ends with the stretch where the entries go on.
    while at < span.stop {
        marks::flip(marks, at - span.base);
        at = section.after(at);
    }
    at
}
