//! A miner at work on verified code, message by message: it knows the public part of the inputs, its own shares of the private ones and its
//! own tape. Whatever messages have come, it has done what they lead to of its part in the run, and no more.
//!
//! Of its shares of the values that gates have made it keeps, from time to time, only those that the code can still name and the last one,
//! and of the gates that have run none: what it does is the same as with all of them. Of messages and of the words of its tape it keeps all, or
//! lets go those that are done with; then it can tell no view.
#![tactic(auto)]

mod answer;
mod delivery;
mod drawing;
mod engine;
mod kept;
mod laws;
mod letting_go;
mod miner;
mod no_tapes;
mod notice;
mod opened;
mod outcome;
mod plan;
mod speech;
mod step;
mod stepping;
mod task;
mod telling;

pub use answer::{End, Lost, MinerErr, Step};
pub use kept::Kept;
pub use laws::a_refusal_stays;
pub use miner::Miner;
pub use no_tapes::NoTapes;
pub use notice::Notice;
pub use task::Task;
