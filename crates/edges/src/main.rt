// Run cases: keys and cells at their edges. Each line is a question and the answer that the code
// gives; `stdout` beside this folder holds the answers that paper 01 gives.

#![tactic(auto)]

mod cells; // positions and their cells
mod keys; // keys, alone and in pairs
mod printing; // keys, and how one stands to another

use cells::{cells_around_zero, cells_at_ends, cells_outside};
use keys::{bits_after, bits_at, cuts, pairs, widths};
use std::io;

fn main(rt: HostRuntime) -> io::Result<()> {
    widths(&rt)?;
    bits_after(&rt)?;
    bits_at(&rt)?;
    pairs(&rt)?;
    cuts(&rt)?;
    cells_at_ends(&rt)?;
    cells_around_zero(&rt)?;
    cells_outside(&rt)?;
    Ok(())
}
