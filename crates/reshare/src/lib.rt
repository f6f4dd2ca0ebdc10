//! The protocol that shares a value anew, as steps that each take the next message.
//!
//! It is the resharing of D. Bogdanov, M. Niitsoo, T. Toft and J. Willemson, "High-performance secure multi-party
//! computation for data mining applications", International Journal of Information Security 11(6), 2012.
#![tactic(auto)]

mod gate;
mod kernels;
mod resharing;
mod together;
mod words;

pub use gate::{ReshareGate, reshare_is_lawful};
pub use resharing::{Reshare, Sent, take_mask};
pub use together::{Part, reshare_together};
pub use words::ShareWords;
