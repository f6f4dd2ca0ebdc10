//! A miner's view of a whole run of gates, with dealing: the simulator, the tapes that it takes, and the twins.
//!
//! Definitions in `specs/`, and the laws that follow from them; what runs here is only what a miner is dealt.
#![tactic(auto)]

mod dealt;
mod laws;
mod words;

pub use dealt::own_shares;
pub use laws::{
    dealt_runs_compute_values, shares_are_simulated, twins_are_as_many, twins_give_the_same_view,
    views_are_simulated, views_hold_what_comes, whole_tapes_correspond,
};
pub use words::see_tapes;
