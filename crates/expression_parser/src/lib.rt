//! The parser of expressions, and what the parsers of all productions share.
//!
//! Each function reads one phrase from the front of the tokens and gives the tokens after it. `specs/Grammar.antt` has the
//! grammar of expressions, by cases on the tree, and `expression` answers what it says. A tree's height is carried along with
//! it, so that no tree is walked again.
#![tactic(auto)]

mod behind;
mod parse;
mod parsed;
mod problem;
mod sign;
mod stopped;
mod token;

pub use behind::{both, boxed, closed};
pub use parse::expression;
pub use parsed::{Parsed, binary};
pub use problem::ParseProblem;
pub use stopped::{Read, Stopped};
pub use token::{begins_data_type, data_type, expect, identifier};
