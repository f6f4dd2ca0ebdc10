//! A machine that runs verified code, step by step, in the clear or blind.
//!
//! Each step does exactly what the step of `code_model` does, unless memory ran out. A step that stops, whatever the reason, leaves the
//! machine as it was; what it did to the stage can be taken back by a mark.
#![tactic(auto)]

mod apply;
mod arrays;
mod begin;
mod calls;
mod change;
mod fuel;
mod laws;
mod machine;
mod marks;
mod named;
mod operands;
mod places;
mod plan;
mod reading;
mod registers;
mod scalars;
mod stepping;
mod texts;
mod values;

pub use begin::start;
pub use fuel::most_steps;
pub use laws::steps_only_gain;
pub use machine::{Caller, Machine};
pub use marks::{Mark, marked, rewind};
pub use stepping::{coming_step, step, take_step};
pub use texts::name_in;
