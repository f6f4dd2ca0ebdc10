//! Which values a run of code can still take: those that a register names. Which gates were made before makes no difference to it.
//!
//! There is nothing to run here: definitions in `specs/`, and the laws that follow from them. A miner that runs code may let go its share
//! of a value that no register of its machine names, and the list of the gates that it has run.
#![tactic(auto)]

mod earlier_gates;
mod laws;

pub use earlier_gates::earlier_gates_change_no_step;
pub use laws::{gates_fit_by_what_they_take, runs_take_what_is_named, steps_take_what_is_named};
