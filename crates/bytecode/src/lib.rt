//! Code as bytes: instructions with the numbers that the bytes say, how they are written, and how a text is read.
#![tactic(auto)]

mod code;
mod copy;
mod decoding;
mod encoding;
mod fault;
mod head;
mod heads;
mod instruction;
mod kind;
mod laws;
mod lists;
mod names;
mod numbers;
mod operands;
mod operator;
mod reader;
mod registers;
mod tag;
mod test;
mod version;
mod writing;

pub use code::{Code, CodeFunction};
pub use decoding::{decode, decode_v1};
pub use encoding::encode;
pub use fault::{DecodeErr, DecodeFault, FaultKind};
pub use instruction::{FunctionPlace, Instruction, JumpTarget, NO_RESULT, NamePlace, Register};
pub use kind::Kind;
pub use laws::{read_code_is_written, written_code_is_read_again};
