// What an edit writes into a lent table, from where the walk for its key ended. Everything that may be
// refused is tested by reading before the first word is written, so that a refusal writes nothing; then
// the header is written and at most three node records, as the plan in specs/Planning.antt has them.
//
// Two facts stay in the clauses. The table stays the slice that is lent, and that it has a header is said of it each
// time: of a struct around it each function would also have to say that it still holds the same one. That a record
// was read (`Taken`) is said of a link and of these words, and holds no longer once they are written.

#![tactic(auto)]

mod key; // what is made for a key: its nodes, and a link hung on its path
mod parts; // what both edits are made of: reading a link, records by value
mod remove; // what a remove writes
mod store; // what a store writes

pub use parts::freed;
pub use remove::make_remove;
pub use store::make_store;

// Why an edit is not made, with nothing written: words that no table has, or want of room.
#[derive(Clone, Copy, Debug, PartialEq, Eq)]
pub enum Unmade {
    Damaged,
    Full,
}

// A spare record: its link, and the next one's.
#[derive(Clone, Copy, Debug, PartialEq, Eq)]
pub struct Spare {
    pub link: u32,
    pub next: u32,
}
