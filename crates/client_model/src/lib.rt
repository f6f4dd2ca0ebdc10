//! What one who looks at values that a run of gates hands over sees of it: the tapes of its view, the way back, and the simulator.
//!
//! It is the client, one recipient of several, or some of these together: which values are its own is said by their numbers.
//! There is nothing to run here: definitions in `specs/`, and the laws that follow from them.
#![tactic(auto)]

mod laws;

pub use laws::{
    client_tapes_correspond, client_twins_are_given_the_same, given_is_made, given_is_what_is_kept,
    told_values_keep_a_view,
};
