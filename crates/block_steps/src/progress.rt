use proto_core::BadMessage;

/// What the oldest message of a block led to, where `S` is a state in which a message is awaited.
#[derive(Drop)]
pub enum Progress<S> {
    /// No message is there, or the oldest one is refused, for this cause: the state is as before.
    Stands(S, Option<BadMessage>),
    /// The message was taken, and a further one is awaited.
    Goes(S),
    /// The block is through: the miner's shares of the one value that it made, or of both.
    Made {
        first: Vec<u64>,
        second: Option<Vec<u64>>,
    },
}
