// What a miner is to run.
ghost use Rattle.std.specs.Prelude.{◌≡◌};
ghost use Rattle.value_steps.specs.Views.{world_seen};
ghost use Rattle.miner_core.specs.Views.{task_world};

use value_steps::{GivenInput, Lengths, Source, World};
use verified_code::Verified;

/// What a miner is to run: code, and what all three know of the inputs and tapes. In words: how many the dealer's tape and each miner's
/// tape have. Of a private input the words are zeros, as many as it has.
pub struct Task {
    pub code: Verified,
    pub dealer: u64,
    pub lengths: Lengths,
    pub inputs: Vec<GivenInput>,
}

// Written out, so that an early exit calls this once.
impl Drop for Task {
    fn drop(self) {
        let Task {
            code: _,
            dealer: _,
            lengths: _,
            inputs: _,
        } = self;
    }
}

impl Task {
    /// The world of one who is told the words that were opened.
    pub(crate) fn world(&self) -> World<'_>
        ensures { world_seen result ≡ task_world self.now }
    {
        World {
            dealer: self.dealer,
            lengths: self.lengths,
            source: Source::Answers,
            inputs: &self.inputs,
        }
    }
}
