//! A seed of tapes.
ghost use Rattle.std.specs.Prelude.{◌≤◌};

/// A seed, and how many words each tape made from it has: at most 16,777,216.
#[derive(Clone, Copy)]
pub struct TapeSeed {
    pub seed: [u8; 32],
    pub words: u64,
    pub ghost few: { words ≤ 16777216 },
}
