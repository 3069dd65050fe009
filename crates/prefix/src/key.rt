// A key whose width is at most 128, as every call knows it of its key once it has tested it.
ghost use Rattle.std.specs.Prelude.{◌≤◌};

use crate::Prefix;

#[derive(Clone, Copy, Debug, PartialEq, Eq)]
pub struct Key {
    pub prefix: Prefix,
    pub ghost narrow: { prefix.width ≤ 128 },
}
