//! The values that a run of gates hands over, and the shares that the miners keep of them.
//!
//! There is nothing to run here: definitions in `specs/`, and the laws that follow from them.
#![tactic(auto)]

mod laws;

pub use laws::kept_shares_are_of_what_is_handed_over;
