//! That a run which knows nothing of the private inputs takes the same course as the run in the clear.
//!
//! There is nothing to run here: definitions in `specs/`, and the law.
#![tactic(auto)]

mod laws;

pub use laws::blind_runs_take_the_same_course;
