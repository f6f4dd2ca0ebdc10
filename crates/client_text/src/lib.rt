//! What the client sees of a run, and its text: what was opened and published, of each value that was handed over the three miners' shares and
//! the elements, and how the run ended.
#![tactic(auto)]

mod seen;
mod writing;

pub use seen::{ClientView, Given, Sighting};
pub use writing::write;
