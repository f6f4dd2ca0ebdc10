//! The parser: from the tokens of a text to the tree of its program.
//!
//! `specs/Grammar.antt` says for each tree which tokens spell it, and `specs/FirstFault.antt` where tokens that spell none
//! are at fault first. Each function reads one phrase from the front of the tokens and gives the tokens after it.
#![tactic(auto)]

mod assignment;
mod declaration;
mod function;
mod leader;
mod parse_err;
mod parsing;
mod program;
mod simple;
mod statement;
mod tokens;
mod types;

pub use parse_err::ParseErr;
pub use parsing::parse;
