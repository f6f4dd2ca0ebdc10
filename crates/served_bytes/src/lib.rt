//! A miner that reads the bytes of its links: what it does with them, and that this is what it does with the messages that they spell.
#![tactic(auto)]

mod laws;

pub use laws::{
    bytes_are_read_frame_by_frame, bytes_are_served_as_messages, honest_bytes_are_served,
    nothing_is_read_before_a_wait,
};
