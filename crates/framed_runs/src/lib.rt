//! The messages of a run of gates, and all that three honest miners send each other in it, can be framed.
//!
//! There is nothing to run here: a definition in `specs/`, and the laws that follow from it.
#![tactic(auto)]

mod laws;

pub use laws::{messages_of_runs_can_be_framed, what_miners_send_can_be_framed};
