//! The code of expressions, from typed trees: steps with numbers as large as they come, and how many rows of registers it has.
#![tactic(auto)]

mod around;
mod body;
mod calling;
mod closing;
mod entries;
mod expressions;
mod kinds;
mod notes;
mod noting;
mod operands;
mod rows;
mod step;
mod words;

pub use around::Around;
pub use body::Body;
pub use calling::{CallHead, given_to};
pub use entries::{call, expression, operand};
pub use kinds::{kind, kind_of};
pub use operands::{WantedOperand, wanted};
pub use rows::{default_register, depth, depth_of_two, greater, in_row, next_row};
pub use step::{BodyPiece, Step};
pub use words::lacks;
