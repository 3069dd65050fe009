// Bit strings: how a key can stand to a node's string. Which of two strings comes first is std's `Ordering`.
// A type alone: what it means, and its laws, stand in specs/ and proofs/.

#![tactic(auto)]

// How a key stands to a node's string. Each bit is the first one that only the longer string has,
// and of two that part, the key's.
#[derive(Clone, Copy, Debug, PartialEq, Eq)]
pub enum Meeting {
    Equal,
    Below(bool),
    Above(bool),
    Apart(bool),
}
