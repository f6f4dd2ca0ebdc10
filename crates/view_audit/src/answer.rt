// What an audit answers.
use proto_core::{Link, Number};

/// What an audit of three views answers.
pub enum Audit {
    /// They are of one run: by this order of deliveries, of the links of the messages, the miners see these views.
    Yes(Vec<Link>),
    /// They are of none; the first failure is in this miner's view, at this line, counted from 1.
    No { miner: Number, line: u128 },
}

// Written out, so that an early exit calls this once.
impl Drop for Audit {
    fn drop(self) {
        match self {
            Audit::Yes(_) | Audit::No { miner: _, line: _ } => {}
        }
    }
}
