//! One block of each protocol, by one miner, message by message.
//!
//! A miner begins a block with its shares and drawn words, and holds what is left of its part. Each step takes one message
//! of the link on which one is awaited, where it fits. What was sent and opened, what is left, and what all messages that
//! are there lead to, is that of the miner's part in the protocol.
#![tactic(auto)]

mod beginning;
mod converting;
mod inbox;
mod links;
mod multiplying;
mod opening;
mod pending;
mod progress;
mod resharing;
mod ring_block;
mod splitting;

pub use beginning::begin;
pub use converting::{Conversion, Converting};
pub use inbox::Inbox;
pub use links::Links;
pub use pending::Pending;
pub use progress::Progress;
pub use ring_block::RingBlock;
pub use splitting::{Splits, Splitting};
