//! The joint run, gate by gate: three miners that were dealt a file's private inputs, and run one gate after another on words that are given for it.
//!
//! What a gate adds stands in `joint_run`. Here are dealing, and a run that is taken on by whoever has the gates and the words.
#![tactic(auto)]

mod dealt;
mod joint;

pub use dealt::dealt_values;
pub use joint::{Joint, memory_wanting};
