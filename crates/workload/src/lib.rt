//! A program with inputs and tapes for trying out how large runs behave: any number names one, and the same number the same.
#![tactic(auto)]

mod inputs;
mod laws;
mod load;
mod program_laws;

pub use laws::load_entries_are_inputs;
pub use load::{Workload, make};
pub use program_laws::load_program_is_runnable;
