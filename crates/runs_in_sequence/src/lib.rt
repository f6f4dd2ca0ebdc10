//! Runs in sequence, in which miners keep shares of what a run hands over, and later runs begin with it: what they compute, and what a miner
//! sees of all of them.
//!
//! Each run has tapes of its own: nothing is said of a word that two runs draw. Many questions of one dealing are runs that keep nothing and begin with
//! what was kept before the first. There is nothing to run here: definitions in `specs/`, and the laws that follow from them.
#![tactic(auto)]

mod laws;

pub use laws::{
    runs_that_fit_go_to_their_ends, sequences_are_simulated, sequences_compute,
    tapes_of_sequences_correspond, twins_of_sequences_see_the_same,
};
