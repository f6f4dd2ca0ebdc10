//! What the client sees of the run of a program, which is told what is opened and published and is given three shares of each value that is
//! handed over: its view, the tapes that this is made of, and the simulator.
//!
//! There is nothing to run here: definitions in `specs/`, and the laws that follow from them.
#![tactic(auto)]

mod laws;

pub use laws::{
    client_tapes_correspond, client_twins_are_as_many, client_twins_see_the_same,
    client_views_are_simulated,
};
