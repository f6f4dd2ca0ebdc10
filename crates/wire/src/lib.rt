//! The bytes that miners send each other over their links: hellos, which come first, and the frames of messages.
#![tactic(auto)]

mod bad_frame;
mod digests;
mod fields;
mod framing;
mod greeting;
mod laws;

pub use bad_frame::BadFrame;
pub use digests::{code_digest, public_digest};
pub use fields::{Field, Hello, mismatch};
pub use framing::{frame, frame_words, read_header, read_words};
pub use greeting::{hello, read_hello};
pub use laws::{
    frames_are_read_in_pieces, frames_have_one_spelling, hellos_are_read_whole,
    hellos_have_one_spelling,
};
