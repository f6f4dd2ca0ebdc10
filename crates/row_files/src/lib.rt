//! Row files: calls of the program that stand in text files, with what each must answer and leave; and how what came out differs from it.
//!
//! And the lines of a program that prints what it tried.
#![tactic(auto)]

mod compared;
mod lines;
mod objects;
mod pieces;
mod reader;
mod row;
mod slow;
mod tables;
mod tally;
mod wrong;

pub use compared::{Outcome, call_lines, judge};
pub use lines::Lines;
pub use objects::Objects;
pub use reader::{Refused, read_rows};
pub use row::{Failing, Kind, Object, Row, Text, peer_of};
pub use slow::SlowLinks;
pub use tally::Tally;
pub use wrong::Wrong;
