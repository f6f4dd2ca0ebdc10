//! What one miner looks at before it begins a gate: whether the gate suits the values before it, what it makes of its own shares where the gate sends
//! nothing, and which protocol it is where it sends.
#![tactic(auto)]

mod exchange;
mod exchanged;
mod local;
mod operand;
mod suiting;

pub use exchange::Exchange;
pub use exchanged::{Exchanged, as_exchanged};
pub use local::local_share;
pub use operand::second_value;
pub use suiting::{same_sizes, suits};
