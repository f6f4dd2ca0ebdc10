//! The protocol that multiplies shared values in any ring, as steps that each take the next message.
#![tactic(auto)]

mod gate;
mod held_words;
mod kernels;
mod multiply;
mod together;
mod words;

pub use gate::{MulGate, mul_is_lawful};
pub use multiply::{Crossed, Masked, Mul};
pub use together::{Operands, Part, multiply_together};
pub use words::MulWords;
