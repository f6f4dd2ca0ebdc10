//! The code of each accepted program does what the program does, and is verified.
//!
//! There is nothing to run here: definitions in `specs/`, and the laws that follow from them.
#![tactic(auto)]

mod laws;

pub use laws::{
    code_of_accepted_programs_is_verified, code_of_accepted_programs_means_what_they_do,
};
