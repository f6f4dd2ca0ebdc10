//! Every text that the program prints, in one place: the events of a run, its end, and the line of each fault.
//!
//! Each text is a function in `specs/`, and what writes it ensures that function byte for byte. Every line ends with a
//! newline and has one space between its words, none at its end.
#![tactic(auto)]

mod code;
mod elements;
mod end;
mod event;
mod fault;
mod input_fault;
mod name;
mod span;

pub use code::{CountedFault, PlacedFault};
pub use elements::{Element, ElementKind, Elements};
pub use end::{End, Ending, TapeOwner, TrapKind};
pub use event::{Event, run_text};
pub use fault::Fault;
pub use input_fault::{EntryField, InputFault};
pub use name::Name;
pub use span::Span;
