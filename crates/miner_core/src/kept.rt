// What a miner keeps.

/// Whether what is done with is let go: messages that came and were taken, messages that were sent and fetched, and words of a tape that were
/// drawn.
#[derive(Clone, Copy)]
pub enum Kept {
    /// Nothing is let go, so that views can be told.
    All,
    /// Only what is still needed stays.
    Needed,
}
