//! The code of a typed program: its reached instances, one after another, as instructions.
#![tactic(auto)]

mod errors;
mod functions;
mod instructions;
mod lists;
mod naming;
mod place;
mod programs;
mod rows;
mod settling;
mod simple_statements;
mod statements;

pub use errors::LowerErr;
pub use programs::lower;
