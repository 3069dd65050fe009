// The refusals of what is asked, before any record is read.
ghost use Rattle.std.specs.Prelude.{◌≡◌};
ghost use Rattle.listing.specs.Slicing.{sound_of, refused_of};

use prefix::Prefix;
use refusals::Refusal;

// The most prefixes of one slice.
const MOST: u32 = 4096;

// The first refusal that applies, if there is one.
// Stays without the key in its answer: handing it on takes some 750 instructions more in a slice of 64, which takes
// some 5,100 over 20,000 routes; with what `put_entry` saves, it would be behind the safe Rust tree's 6,199.
#[tactic(auto, unfolding(crate::specs::Slicing::refused_of))]
pub(crate) fn refuse(
    n: usize,
    resume: Option<Prefix>,
    size: u32,
    room: usize,
) -> Result<(), Refusal>
    ensures { result ≡ refused_of n resume size room }
{
    if !records::is_table(n) {
        return Err(Refusal::BadLength);
    }
    if !sound(resume) {
        return Err(Refusal::BadPrefix);
    }
    if !(1..=MOST).contains(&size) {
        return Err(Refusal::BadSize);
    }
    let needed = 6 * (size as usize);
    if room < needed {
        return Err(Refusal::ShortOut(needed));
    }
    Ok(())
}

// The resume prefix, if there is one, is valid. Stays a match: with `is_none_or` here, and a range in
// `records::is_table`, a slice of 64 took some 1,070 instructions more.
fn sound(resume: Option<Prefix>) -> bool
    ensures { result ≡ sound_of resume }
{
    match resume {
        None => true,
        Some(k) => prefix::valid(k),
    }
}
