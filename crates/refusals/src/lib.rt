// The numbered refusals of paper 01, one enum for every call. A call answers `Result<_, Refusal>`: what it gives
// where it accepts, or the first refusal that applies. Which number comes where several apply, and where none
// does, stands in specs/.

#![tactic(auto)]

ghost use Rattle.std.specs.Prelude.{◌≡◌};
ghost use Rattle.refusals.specs.Refusals.{number as number_in, nodes_in, needed_in};

use std::error::Error;
use std::fmt;

// Why a call is refused. Absent and Full have how many nodes the key's path has, whose widths the trail then
// holds; ShortOut has how long the output must be, in its own bytes or words.
#[derive(Clone, Copy, Debug, PartialEq, Eq)]
pub enum Refusal {
    BadLength,
    BadPrefix,
    BadPosition,
    BadSize,
    ShortOut(usize),
    Damaged,
    Absent(usize),
    Full(usize),
    BadImage,
}

impl Refusal {
    // The paper's number.
    pub fn number(self) -> u32
        ensures { result ≡ number_in self }
    {
        match self {
            Refusal::BadLength => 1,
            Refusal::BadPrefix => 2,
            Refusal::BadPosition => 3,
            Refusal::BadSize => 4,
            Refusal::ShortOut(_) => 5,
            Refusal::Damaged => 6,
            Refusal::Absent(_) => 7,
            Refusal::Full(_) => 8,
            Refusal::BadImage => 9,
        }
    }

    // How many nodes' widths the trail holds: 0 where there is none, as the paper's counts are.
    pub fn nodes(self) -> usize
        ensures { result ≡ nodes_in self }
    {
        match self {
            Refusal::Absent(n) | Refusal::Full(n) => n,
            _ => 0,
        }
    }

    // How long the output must be, where it is too short: 0 where it is not, as the paper's counts are.
    pub fn needed(self) -> usize
        ensures { result ≡ needed_in self }
    {
        match self {
            Refusal::ShortOut(n) => n,
            _ => 0,
        }
    }
}

// The paper's name.
impl fmt::Display for Refusal {
    fn fmt<W: fmt::Write>(&self, f: &mut fmt::Formatter<W>) -> fmt::Result {
        f.write_str(match self {
            Refusal::BadLength => "BadLength",
            Refusal::BadPrefix => "BadPrefix",
            Refusal::BadPosition => "BadPosition",
            Refusal::BadSize => "BadSize",
            Refusal::ShortOut(_) => "ShortOut",
            Refusal::Damaged => "Damaged",
            Refusal::Absent(_) => "Absent",
            Refusal::Full(_) => "Full",
            Refusal::BadImage => "BadImage",
        })
    }
}

impl Error for Refusal {}
