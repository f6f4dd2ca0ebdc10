//! What each operation on values does to a run: it is charged, may trap, has its random words compared with the tapes, makes its gates
//! and gives a value.
//!
//! Each call does exactly what the effect of the same name in `language_model` does (`Does`), unless memory ran out. A run stops with
//! the first stop of an operation; what it had done by then stands in its stage.
#![tactic(auto)]

mod applied;
mod arrays;
mod classification;
mod conditions;
mod drawing;
mod element_gates;
mod gating;
mod halt;
mod inputs;
mod one_operand;
mod opening;
mod operator_gates;
mod operators;
mod private_index;
mod publishing;
mod stage;
mod steps;
mod telling;
mod value;
mod world;

pub use applied::Applied;
pub use arrays::{
    WrittenElement, concatenated, element_of_array, element_written, filled, with_element,
};
pub use classification::wanted;
pub use conditions::{asserted, tested};
pub use halt::Halt;
pub use inputs::{Asked, asked_for};
pub use one_operand::{bits_extracted, cast_to, negated, size_told, summed};
pub use opening::declassified;
pub use operators::{operated, operation};
pub use private_index::{looked_up, lookup};
pub use publishing::published;
pub use stage::{Drawn, Stage};
pub use steps::{MOST_CALLS, charge, charge_elements, charged, test_at};
pub use value::{Secrecy, Value};
pub use world::{GivenInput, Lengths, Source, World};
