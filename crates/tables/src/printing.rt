// Printing: what a call answers, with its trail.
use lookup::{Keyed, TRAIL};
use refusals::Refusal;
use std::io;

// ", trail" and the first n bytes.
fn trail(rt: &impl Print, n: usize, bytes: &[u8; TRAIL]) -> io::Result<()> {
    print!(rt; ", trail")?;
    for b in bytes.iter().take(n) {
        print!(rt; " {b}")?;
    }
    println!(rt; "")
}

// What a call answers, and the trail where one is written; `value` prints what is accepted.
pub(crate) fn told<T, F: FnOnce(T) -> io::Result<()>>(
    rt: &impl Print,
    answer: Result<Keyed<T>, Refusal>,
    bytes: &[u8; TRAIL],
    value: F,
) -> io::Result<()>
    requires { F.IsAlwaysCallable value }
{
    match answer {
        Ok(x) => {
            value(x.value)?;
            trail(rt, x.nodes, bytes)
        }
        Err(e) => {
            print!(rt; "{e}")?;
            match e {
                Refusal::Absent(n) | Refusal::Full(n) => trail(rt, n, bytes),
                _ => println!(rt; ""),
            }
        }
    }
}
