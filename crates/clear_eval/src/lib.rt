//! Evaluation of typed programs in the clear: what the three miners' run of a program opens and publishes, how it ends, what it costs,
//! which words of the tapes it needs, and its gates.
#![tactic(auto)]

mod beginning;
mod blind_course;
mod blind_run;
mod calling;
mod dealer;
mod entering;
mod evaluation;
mod flow;
mod held;
mod laws;
mod offering;
mod parts;
mod place;
mod public_offering;
mod ran;
mod report;
mod running;
mod slots;
mod steps;
mod words;

pub use blind_course::{BlindRun, run_blind};
pub use blind_run::{BlindErr, blind};
pub use dealer::dealing;
pub use laws::public_parts_are_public;
pub use public_offering::parts_given;
pub use ran::world_of;
pub use report::{Needs, Report};
pub use running::eval;
