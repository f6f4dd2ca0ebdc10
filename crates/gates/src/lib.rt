//! Gates: the single operations on shared values of which a run of three miners is a list.
//!
//! Values are numbered in the order in which they are made. A gate names its operands by their numbers, and the values that it
//! makes get the next ones. What a gate means on clear values stands in `specs/Clear.antt`: which values fit a list of gates.
#![tactic(auto)]

mod bits;
mod clear;
mod clear_words;
mod cutting;
mod flat_lists;
mod gate;
mod laws;
mod operands;
mod ring_kind;
mod span;
mod values;
mod words;

pub use bit_words::words_for;
pub use clear::evaluated;
pub use cutting::{BLOCK_LEN, blocks};
pub use gate::Gate;
pub use laws::{evaluated_runs_fit, evaluated_values_fit, later_values_change_nothing};
pub use operands::Operands;
pub use ring_kind::RingKind;
pub use values::Values;
pub use words::Words;
