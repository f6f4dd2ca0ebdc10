// What each miner sends and takes.
use proto_core::Link;

/// A step of a miner's script: a message that it sends, or one that it takes.
#[derive(Clone, Copy)]
pub enum Move {
    /// A message goes out on this link.
    Sends(Link),
    /// The oldest message of this link that isn't taken is taken; where none has come, the miner waits for it.
    Takes(Link),
}

/// What each miner sends and takes, in order.
pub struct Scripts {
    pub one: Vec<Move>,
    pub two: Vec<Move>,
    pub three: Vec<Move>,
}

// Written out, so that an early exit calls this once.
impl Drop for Scripts {
    fn drop(self) {
        let Scripts {
            one: _,
            two: _,
            three: _,
        } = self;
    }
}
