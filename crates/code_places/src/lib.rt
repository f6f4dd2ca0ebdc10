//! Code as turns of a run: for one who is told the words that were opened, each step of the code is a turn, and its course is that of
//! the run in the clear.
//!
//! There is nothing to run here: definitions in `specs/`, and the laws that follow from them.
#![tactic(auto)]

mod laws;

pub use laws::{code_has_twins, dealt_gates_run_in_parts, steps_can_be_done_again};
