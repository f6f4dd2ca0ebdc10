//! The commands that three miners carry out: `run`, and `load`, which runs a workload.
#![tactic(auto)]

mod job;
mod load;
mod run;
mod tapes;
mod views;

pub use load::plan_load;
pub use run::plan_run;
