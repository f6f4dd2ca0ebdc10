//! What each miner sees of a program's run on the inputs of a file is what the simulator makes of the public part and the opened words.
//!
//! Definitions in `specs/`, and the laws that follow from them; what runs here only puts parts of a view together.
#![tactic(auto)]

mod arrival;
mod coming;
mod laws;
mod order;
mod parts;

pub use arrival::Arrival;
pub use laws::{
    nets_are_counted, tapes_correspond, twins_are_as_many, twins_see_the_same, views_are_simulated,
};
pub use order::arrivals;
pub use parts::{input_shares, received};
