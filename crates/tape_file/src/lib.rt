//! Tapes: the random words that the dealer and the three miners draw in a run.
//!
//! Tapes stand in a file of all four or in a file of one party's own tape, or are drawn from a seed.
#![tactic(auto)]

mod bounds;
mod format;
mod own;
mod read_err;
mod seeds;
mod tapes;
mod words;

pub use bounds::tapes_are_of_words;
pub use format::{read, write};
pub use own::{read_own, write_own};
pub use read_err::ReadErr;
pub use seeds::from_seed;
pub use tapes::Tapes;
