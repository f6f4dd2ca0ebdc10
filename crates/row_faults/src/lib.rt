//! What must come of a row where one call of an object fails, by what comes where none does.
#![tactic(auto)]

mod faulted;

pub use faulted::{calls_made, judge_fault};
