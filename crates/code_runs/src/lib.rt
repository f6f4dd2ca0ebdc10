//! Three miners that run code without a private input, told what is opened by their own shares, come to what the run in the clear
//! reports.
//!
//! Definitions in `specs/`, and the laws that follow from them; what runs here only puts together, for the client, what three miners tell.
#![tactic(auto)]

mod adding;
mod client_laws;
mod laws;

pub use adding::all_added_up;
pub use client_laws::told_together_are_the_events;
pub use laws::{miners_run_the_code, miners_run_the_program};
