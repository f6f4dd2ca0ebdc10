//! A miner's journal: what came to it, kept so that a crash at any moment leaves all of it but, perhaps, the last message.
#![tactic(auto)]

mod beginning;
mod heads;
mod journal;
mod journal_err;
mod keeping;
mod laws;
mod looking;
mod opening;
mod reading;
mod synced;
mod walking;

pub use journal::Journal;
pub use journal_err::{JournalErr, KeptFile};
pub use laws::{courses_go_on, courses_hold, replayed_journals_are_settled};
