// The library: each public call as C has it, one file for each group of calls. Such a function returns
// the paper's number of the answer, 0 where accepted, and writes the answer's values into a lent array.
// None has a `requires`. Crate nalfipode_c exports them. Each is one match, which stays written out: a
// function for all would take what is accepted and what is refused as two closures, its contract would
// state what each of them gives, and every call would still write both.

#![tactic(auto)]

ghost use Rattle.std.specs.Prelude.{◌≡◌};
ghost use Rattle.nalfipode.specs.Keys.{key_of};

use prefix::Prefix;

pub mod cells; // a position's cell
pub mod changes; // fresh, store and remove
pub mod checks; // the check of a whole table
pub mod images; // an image written, checked, described, and looked up in
pub mod reads; // fetch and longest match
pub mod slices; // a listing's slice

// The prefix of a width and four words, as they are given.
pub fn keyed(width: u32, key: &[u32; 4]) -> Prefix
    ensures { result ≡ key_of width key.now }
{
    Prefix {
        width,
        w0: key[0],
        w1: key[1],
        w2: key[2],
        w3: key[3],
    }
}
