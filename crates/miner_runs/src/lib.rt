//! Three miners at work on code, each by its shares of the inputs, its own values and its tape alone, come to what the run in the clear
//! reports, under every order of delivery.
//!
//! There is nothing to run here: definitions in `specs/`, and the laws that follow from them.
#![tactic(auto)]

mod laws;

pub use laws::{miners_at_work_are_own_miners, own_miners_run_programs, own_miners_run_the_code};
