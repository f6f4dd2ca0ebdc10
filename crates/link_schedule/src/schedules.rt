// A net under a schedule.
ghost use Rattle.std.specs.Prelude.{◌≡◌, Err, IfSome};
ghost use Rattle.outside.specs.Tapes.{TapesState};
ghost use Rattle.link_schedule.specs.declared.errors.RunErr.TheVariants as running;
ghost use Rattle.link_schedule.specs.Answers.{EndAnswers, RunAnswers};
ghost use Rattle.link_schedule.specs.Miners.{ForEachState, GoesAlong, IsNetOf, IsSomeNet};
ghost use Rattle.link_schedule.specs.Streams.{run_lost, ForEachTapes, StreamNet};

use crate::errors::{DeliverErr, RunErr};
use crate::miners::awaited;
use crate::net::Net3;
use outside::TapeSource;
use proto_core::{Link, Number};

impl Net3 {
    /// The lowest miner that waits is named, if one does.
    fn stalled(&self) -> Result<(), RunErr>
        ensures { (s : StreamNet) → IsNetOf self.now s → ForEachTapes s (λ net. EndAnswers net result) }
    {
        if let Some(link) = awaited(&self.miners.one) {
            let miner = Number::One;
            return Err(RunErr::Stalled { miner, link });
        }
        if let Some(link) = awaited(&self.miners.two) {
            let miner = Number::Two;
            return Err(RunErr::Stalled { miner, link });
        }
        if let Some(link) = awaited(&self.miners.three) {
            let miner = Number::Three;
            return Err(RunErr::Stalled { miner, link });
        }
        Ok(())
    }

    /// Delivers the entries of a schedule, and says whether all three miners have then ended.
    ///
    /// `EmptyLink` names the first entry whose link has no message under way; those before it are delivered. `Stalled` comes where all are
    /// delivered and a miner still waits. `TapeFault` comes as from `deliver`.
    pub fn run<T: TapeSource>(&mut self, schedule: &[Link], tapes: &mut T) -> Result<(), RunErr>
        requires { IsSomeNet self.old (T.state tapes.old) }
        ensures answers { ForEachState self.old (T.state tapes.old) (λ s.
            GoesAlong s self.new (T.state tapes.old) (T.state tapes.new) (run_lost result) (λ net then. RunAnswers net then schedule.now result)) }
        ensures lost { IfSome self.old.lost (λ why. (result ≡ Err (running.Lost why)) × (self.new ≡ self.old) × (tapes.new ≡ tapes.old)) }
    {
        if let Some(lost) = self.lost {
            return Err(RunErr::Lost(lost));
        }
        for link in schedule {
            match self.deliver(*link, tapes) {
                Ok(()) => {}
                Err(DeliverErr::EmptyLink { entry, link, sent }) => {
                    return Err(RunErr::EmptyLink { entry, link, sent });
                }
                Err(DeliverErr::Lost(lost)) => return Err(RunErr::Lost(lost)),
            }
        }
        self.stalled()
    }
}
