// Printing: keys, and how one stands to another.
use bits::Meeting;
use prefix::Prefix;
use std::fmt;

// A key as its four words and its width.
#[derive(Clone, Copy)]
pub(crate) struct Shown(pub(crate) Prefix);

impl fmt::Display for Shown {
    fn fmt<W: fmt::Write>(&self, f: &mut fmt::Formatter<W>) -> fmt::Result {
        let p = self.0;
        write!(
            f,
            "{:08x}{:08x}{:08x}{:08x}/{}",
            p.w0, p.w1, p.w2, p.w3, p.width
        )
    }
}

// How a key meets a string, with the bit.
#[derive(Clone, Copy)]
pub(crate) struct Met(pub(crate) Meeting);

impl fmt::Display for Met {
    fn fmt<W: fmt::Write>(&self, f: &mut fmt::Formatter<W>) -> fmt::Result {
        match self.0 {
            Meeting::Equal => write!(f, "equal"),
            Meeting::Below(x) => write!(f, "below by {}", u8::from(x)),
            Meeting::Above(x) => write!(f, "above by {}", u8::from(x)),
            Meeting::Apart(x) => write!(f, "apart by {}", u8::from(x)),
        }
    }
}
