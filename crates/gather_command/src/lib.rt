//! Inputs of several owners, who deal apart, and the command `gather`: a miner puts the share files that they dealt it end to end, and has the file of one
//! dealing of all inputs. No owner sees another's inputs, and no one has all of them.
#![tactic(auto)]

mod apart;
mod gathering;
mod planning;
mod shares;

pub use apart::dealing_apart_is_one_dealing;
pub use gathering::{GatherErr, gather};
pub use planning::plan_gather;
