//! Code of the first version: what it meant, and that the same code keeps its meaning today.
#![tactic(auto)]

mod old_code;

pub use old_code::{VerifiedV1, upgrade, verify_v1};
