//! The protocol that turns shared bits into shared numbers, as steps that each take the next message.
#![tactic(auto)]

mod bits;
mod conv;
mod gate;
mod kernels;
mod together;
mod words;

pub use bits::{check_words, masked_bits, xored_bits};
pub use conv::{Conv, First, Second, Sent, Stage};
pub use gate::{ConvGate, conv_is_lawful};
pub use together::{Conversion, Operand, convert_together};
pub use words::ConvWords;
