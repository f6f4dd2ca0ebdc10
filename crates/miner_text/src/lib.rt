//! The text that a miner writes of its run, and its reader.
//!
//! It is the text of a run, but for a value that is published to the client it has the miner's own share of it. Three such texts are
//! put together line by line.
#![tactic(auto)]

mod laws;
mod line;
mod parts;
mod reading;
mod result_share;
mod text_err;
mod types;
mod writing;

pub use laws::{texts_are_read_again, what_is_read_was_written};
pub use line::MinerLine;
pub use reading::read;
pub use result_share::ResultShare;
pub use text_err::TextErr;
pub use types::type_word;
pub use writing::write;
