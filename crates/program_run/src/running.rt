// What a run of a program on shares tells.
ghost use Rattle.std.specs.Prelude.{◌≡◌, []};
ghost use Rattle.sc_text.specs.declared.end.Ending.TheVariants.{Tape};
ghost use Rattle.sc_text.specs.declared.end.TapeOwner.TheVariants.{Dealer};

use sc_text::{End, Ending, Event, TapeOwner};
use std::alloc::Global;

/// What a run told, in order, and how it ended at which cost.
pub struct RunReport {
    pub events: Vec<Event>,
    pub end: End,
}

// Written out, so that an early exit calls this once.
impl Drop for RunReport {
    fn drop(self) {
        let RunReport { events: _, end: _ } = self;
    }
}

/// The run that ends before it begins, since the dealer's tape has too few words.
pub fn undealt(alloc: Global, need: u128, have: u64) -> RunReport
    ensures events { result.events.items ≡ [] }
    ensures end { result.end ≡ record { how = Tape Dealer need have; cost = 0 } }
{
    let owner = TapeOwner::Dealer;
    RunReport {
        events: Vec::new(alloc),
        end: End {
            how: Ending::Tape { owner, need, have },
            cost: 0,
        },
    }
}
