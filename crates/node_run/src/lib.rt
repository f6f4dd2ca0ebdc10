//! One miner's part of a run, made of its share file: the miner and the hello that it sends its peers; then it joins its peers, serves the links to them,
//! and gives its text. Where the inputs could not be dealt, the miner runs code that does nothing.
#![tactic(auto)]

mod greeting;
mod idle;
mod joining;
mod laws;
mod making;
mod running;
mod telling;
mod text;

pub use greeting::hello;
pub use laws::miners_idle_at_once;
pub use making::{Made, miner};
pub use running::{NodeText, OwnPart, run_node};
