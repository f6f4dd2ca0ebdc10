//! The typed tree of each program that the checker accepts.
#![tactic(auto)]

mod laws;
mod typing;

pub use laws::accepted_programs_have_trees;
pub use typing::{checked_tree, type_program};
