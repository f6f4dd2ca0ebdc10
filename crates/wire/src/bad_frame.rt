// Why bytes are no frame, or no hello.

/// The bytes are no frame, or no hello. `place` is the first byte that is wrong: 0 for the one that tells what it is, 1 for a count of
/// words that is 0 or over 2,048.
#[derive(Clone, Copy)]
pub struct BadFrame {
    pub place: u64,
}
