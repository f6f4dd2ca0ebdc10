//! The simulator of what the client sees of a program's run: it makes the view of what everybody may know of the inputs, of what is opened and handed
//! over, and of tapes and a budget. None of its arguments holds a private word but those that are handed over, and none a share.
//!
//! The run of one who is told what is opened says which gates run and what is told; each value that is handed over takes its elements from those
//! that are told, two of its shares are words of the tapes, and the third is what these leave of the elements.
#![tactic(auto)]

mod making;
mod simulate_err;
mod simulating;
mod told;
mod zeros;

pub use simulate_err::SimulateErr;
pub use simulating::{SimulatedRun, simulate};
