// A source that has no words.
ghost use Rattle.miner_core.specs.Streams.{no_words};

use outside::{Failed, TapeSource};

/// A source that has no words, for a miner that was given its whole tape.
#[derive(Drop)]
pub struct NoTapes;

impl TapeSource for NoTapes {
    ghost state = { λ _. no_words };

    fn left(&self, _party: u8) -> u64 {
        0
    }

    fn take(&mut self, _party: u8, _into: &mut [u64]) -> Result<(), Failed> {
        Ok(())
    }
}
