//! Many programs that are run on inputs which were dealt once, each run on tapes of its own: what a miner sees of all of them.
//!
//! The dealer's words are drawn once, and serve all runs; a miner's tape that serves two runs is outside of these laws.
//! There is nothing to run here: definitions in `specs/`, and the laws that follow from them.
#![tactic(auto)]

mod laws;

pub use laws::{
    all_tapes_correspond, question_twins_are_as_many, question_twins_see_the_same,
    questions_are_simulated,
};
