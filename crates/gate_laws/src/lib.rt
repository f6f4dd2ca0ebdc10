//! That the gates which code makes suit the three miners' run of them, and compute the values that the code computes.
//!
//! There is nothing to run here: definitions in `specs/`, and the laws that follow from them.
#![tactic(auto)]

mod laws;

pub use laws::{runs_make_suited_gates, steps_make_suited_gates, verified_code_may_run};
