//! Whether three miners' views are of one run: what an audit answers, as definitions, and laws of its steps and of its answer.
#![tactic(auto)]

mod answer;
mod laws;

pub use answer::Audit;
pub use laws::{failures_refute, passed_views_are_one_run, views_of_one_run_pass};
