use proto_core::{BadMessage, Link};

/// Where a miner stands when it has done all that the messages and the words that were supplied lead to.
#[derive(Clone, Copy, Drop)]
pub enum Standing {
    /// All gates are through.
    Through,
    /// For a message of this link: none is there, or the oldest one is refused, for this cause.
    Waits(Link, Option<BadMessage>),
    /// A gate doesn't suit the values before it.
    Unfit,
    /// For so many words more of its tape, and no fewer: the next gate draws more than were supplied.
    Wants(u128),
}
