//! Sources of tapes: the words that the dealer and the miners draw in a run, each where it is asked for.
//!
//! They are taken from tapes in memory, made from a seed, or read from a file of all four tapes or of one party's own.
#![tactic(auto)]

mod ahead;
mod file_words;
mod four_file;
mod held;
mod lengths;
mod open_err;
mod opening;
mod own_file;
mod seeded;

pub use four_file::FileTapes;
pub use held::HeldTapes;
pub use lengths::TapeLengths;
pub use open_err::OpenErr;
pub use opening::{read_length, read_lengths};
pub use own_file::OwnTape;
pub use seeded::SeedTapes;
