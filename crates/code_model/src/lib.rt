//! What code does, and the code of a typed program, as steps and as the raw instructions that each step is.
//!
//! There is nothing to run here: definitions in `specs/`, and the laws that follow from them.
#![tactic(auto)]

mod laws;
mod step_laws;

pub use laws::{
    blind_runs_of_code_take_the_same_course, code_means_what_the_program_does,
    registers_keep_their_kinds, runs_of_code_end, verified_code_runs,
};
pub use step_laws::steps_are_what_their_instructions_settle_to;
