//! One miner runs gates on its own shares, one after another, message by message.
//!
//! It is told what it was dealt, its tape and, little by little, the gates. Whatever messages have come, it has done what they
//! lead to of its part in the run of the gates, and no more. A gate that sends messages is run in blocks of at most 512
//! elements; only the block at work is copied, and operands are read where they stand.
#![tactic(auto)]

mod beginning;
mod engine;
mod laws;
mod made;
mod node;
mod plan;
mod running;
mod standing;
mod supply_err;
mod tape;
mod wanted;

pub use laws::{gates_are_its_part_of_the_run, later_gates_are_run_behind, the_test_is_right};
pub use node::GateNode;
pub use standing::Standing;
pub use supply_err::SupplyErr;
