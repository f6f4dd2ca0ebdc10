//! The tokens of a program's text.
//!
//! A program is bytes. They are cut, from the front, into pieces: blanks, comments and tokens, each the longest that stands
//! there. What can't be cut is refused at its first fault.
//!
//! What stands at a front is defined in `specs/Pieces.antt`, with the spellings in `specs/Signs.antt`; the tokens and the
//! refusal of a text in `specs/Lexis.antt`, and lines and columns in `specs/Places.antt`.
#![tactic(auto)]

mod bytes;
mod lex_err;
mod lexing;
mod number;
mod piece;
mod place;
mod sign;
mod spelling;
mod token;

pub use lex_err::{LexErr, LexFault};
pub use lexing::lex;
pub use sign::Sign;
pub use token::{Token, TokenKind, Tokens};
