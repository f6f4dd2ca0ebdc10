//! How a miner at work on verified code ends, whatever messages came to it.
//!
//! There is nothing to run here: definitions in `specs/`, and the laws that follow from them.
#![tactic(auto)]

mod laws;

pub use laws::{miners_end_as_evaluation_can, miners_of_share_files_end_as_evaluation_can};
