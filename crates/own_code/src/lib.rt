//! One miner that runs code by what it was dealt and its own values, which of its values it may let go, and that it needs no list of its
//! gates.
//!
//! There is nothing to run here: definitions in `specs/`, and the laws that follow from them.
#![tactic(auto)]

mod earlier_gates;
mod laws;

pub use earlier_gates::earlier_gates_change_no_run;
pub use laws::{code_needs_what_it_names, gates_make_what_they_count, gates_need_what_they_take};
