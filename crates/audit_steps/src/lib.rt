//! Steps of an audit, each over one view: which of its lines is the first that isn't as it must be. That is an `in` line of another name or number
//! of words, a message that isn't the next of its link, or a last line that differs from what a run tells.
#![tactic(auto)]

mod ends;
mod messages;
mod shares;

pub use ends::wrong_end_at;
pub use messages::wrong_at;
pub use shares::wrong_share_at;
