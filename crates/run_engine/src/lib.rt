//! The top call: what the program does with the words of its command line.
#![tactic(auto)]

mod laws;
mod read_words;
mod top;

pub use laws::{commands_are_kept, files_keep_laws};
pub use read_words::read_runs_are_of_words;
pub use top::secrec;
