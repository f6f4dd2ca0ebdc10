//! What stands written in the code of a program: the words, lines and names of its trees; and that the raw code of each accepted program can be written, so
//! that it is read again, and has functions no heavier than their trees.
//!
//! There is nothing to run here: definitions in `specs/`, and the laws that follow from them.
#![tactic(auto)]

mod laws;
mod writing_laws;

pub use laws::{code_says_what_its_trees_say, well_typed_trees_say_words};
pub use writing_laws::{
    accepted_code_is_writable, functions_are_narrow, functions_are_within_their_weight,
    right_code_is_writable,
};
