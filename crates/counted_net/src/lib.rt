//! What a delivery of messages comes to, by what three miners send and take, in order: the links on which messages are delivered, or why it
//! is refused. No miner runs and no message is sent: there are counts alone.
#![tactic(auto)]

mod answer;
mod choosing;
mod cursor;
mod delivery;
mod miners;
mod moves;
mod net;
mod tally;

pub use answer::{ORDER_STREAM, deliver_counts};
pub use choosing::chosen_link;
pub use delivery::{Delivery, DeliveryErr};
pub use moves::{Move, Scripts};
pub use net::Net;
pub use tally::Tally;
