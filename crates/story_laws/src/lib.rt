//! What a miner at work does, whatever came to it: it waits for links that end at it, sends messages that frames can carry, draws no more words than
//! its tape has, and reads no others; with its whole tape it answers by one story.
//!
//! There is nothing to run here: definitions in `specs/`, and the laws that follow from them.
#![tactic(auto)]

mod drawn_laws;
mod laws;

pub use drawn_laws::{miners_draw_of_their_tapes, miners_read_what_they_draw};
pub use laws::{miners_send_frames, miners_wait_at_their_links, whole_tapes_make_one_story};
