//! Whole gates: a protocol on any number of elements, run block after block.
//!
//! There is nothing to run here: definitions in `specs/`, and the laws that follow from them.
#![tactic(auto)]

mod laws;
mod whole_gates;

pub use laws::{blocks_are_cut_off_the_front, blocks_keep_privacy, blocks_keep_soundness};
pub use whole_gates::{
    whole_conversion_is_lawful, whole_opening_is_lawful, whole_product_is_lawful,
    whole_result_is_lawful, whole_splitting_is_lawful,
};
