//! The protocol that splits shared numbers into shared words, as steps that each take the next message.
#![tactic(auto)]

mod gate;
mod kernels;
mod split;
mod together;
mod words;

pub use gate::{NegatedSplitGate, SplitGate, split_is_lawful};
pub use split::{Sent, Split, Waiting};
pub use together::{Splitting, split_together};
pub use words::SplitWords;
