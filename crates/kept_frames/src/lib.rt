//! Laws: a miner that is started again from its journal is as one that has read the frames of the journal's messages, and sends again what it has sent.
#![tactic(auto)]

mod laws;

pub use laws::{kept_frames_are_read, messages_stay_the_same};
