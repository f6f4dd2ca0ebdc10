//! That the code of accepted programs, and what is dealt of an input file, are such as the laws on gates ask for.
//!
//! There is nothing to run here: definitions in `specs/`, and the laws that follow from them.
#![tactic(auto)]

mod laws;

pub use laws::{accepted_code_runs_on_inputs, accepted_code_suits, inputs_are_dealt};
