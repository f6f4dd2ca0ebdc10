//! What a program and its inputs are to three miners: its code, each miner's shares, and what a run of theirs tells.
//!
//! A law says that three miners who run the code on these shares open and publish what evaluation in the clear does, and end as it does.
#![tactic(auto)]

mod compiling;
mod laws;
mod running;

pub use compiling::compile_program;
pub use laws::accepted_programs_run_on_shares;
pub use running::{RunReport, undealt};
