//! The protocols that open a shared value to all three miners, and that hand its shares to the client, as steps that
//! each take the next message.
#![tactic(auto)]

mod gates;
mod open;
mod result;
mod together;

pub use gates::{OpenGate, ResultGate, open_is_lawful, result_is_lawful};
pub use open::{FromNext, FromPrev, Masked, Open};
pub use reshare::Sent;
pub use result::Result3;
pub use together::{Part, open_together};
