//! What protocols between three miners are made of: the rings in which values are shared, parties, links, shares, blocks,
//! messages, and what a protocol is.
#![tactic(auto)]

mod block;
mod elementwise;
mod interactive;
mod laws;
mod link;
mod messages;
mod msg;
mod party;
mod refused;
mod resharing;
mod ring;
mod schedule;
mod share;

pub use block::{Block, Full};
pub use elementwise::{add_blocks, subtract_blocks, zero_block};
pub use interactive::{Interactive, interactive_is_lawful};
pub use laws::a_wrong_bit_is_told_at_its_place;
pub use link::Link;
pub use messages::Messages;
pub use msg::{Msg, check_bits};
pub use party::{Number, P1, P2, P3, Party};
pub use refused::{BadMessage, Refused};
pub use resharing::{reshare, sum_of_shares};
pub use ring::{
    AddRing, ShareRing, XorRing, add_ring_is_a_ring, share_ring_is_a_ring, xor_ring_is_a_ring,
};
pub use schedule::Schedule;
pub use share::Share;
