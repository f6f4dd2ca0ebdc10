//! Dealing read back, in Rust: the inputs of which three miners' views show the shares, the dealer's words with which they were dealt, and the first
//! input whose shares don't add up to a value of its type.
#![tactic(auto)]

mod inputs;
mod lines;
mod sums;
mod values;

pub use inputs::{found_inputs, found_words};
pub use sums::wrong_sums_at;
