//! Operators on lists of words, as evaluation in the clear computes them.
//!
//! What each operator means stands in `specs/` of `language_model`. A word is any `u64`; a number with a sign is its two's
//! complement, and a truth value is the word 1 or 0. Every
//! call has a result for all words; what makes a list answers `AllocError` where memory runs out. Each takes time linear in its
//! lists and its result. In the gates of a run private truth values stand packed, 64 in a word.
#![tactic(auto)]

mod operators;
mod packing;
mod pairs;
mod printing;
mod words;

pub use operators::{operation, signed_operation, truth_operation, word_operation};
pub use packing::{gate_size, gate_words, into_gate_words};
pub use pairs::{each, each_and_scalar, may_divide, scalar_and_each};
pub use printing::{element_as, elements, printed_kind};
pub use words::{
    bits, cast_words, first_word, flipped, looked_up, low_bits, repeated, wrapping_sum,
};
