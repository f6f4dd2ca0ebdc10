//! What three miners come to with the plans of `equality`, `bit_extract`, `compare` and of a look-up after any gates.
//!
//! There is nothing to run here: definitions in `specs/`, and the laws that follow from them.
#![tactic(auto)]

mod laws;

pub use laws::{
    bits_on_shares, bits_suit, comparison_on_shares, comparison_suits, equality_on_shares,
    gates_behind_runs, lookup_on_shares, signed_comparison_on_shares, signed_comparison_suits,
    zero_test_on_shares, zero_test_suits,
};
