//! Three views of a run of gates whose inputs were dealt, read back: where the steps of an audit find nothing wrong and a schedule leaves nothing,
//! the views are what the miners see of a run on the inputs and tapes that are found; and of what they see the steps find nothing wrong.
//!
//! There is nothing to run here: definitions in `specs/`, and the laws that follow from them.
#![tactic(auto)]

mod laws;

pub use laws::{passed_views_are_seen, seen_views_pass};
