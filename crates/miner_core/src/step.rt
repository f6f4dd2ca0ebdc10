// One step of the code, by one who is told opened words.
ghost use Rattle.std.specs.Prelude.{◌≡◌, []};
ghost use Rattle.value_steps.specs.Views.{stage_seen};
ghost use Rattle.own_code.specs.Places.{telling_stage};
ghost use Rattle.miner_core.specs.TurnViews.{IsTurned};

use crate::outcome::Turned;
use std::alloc::{AllocError, Global};
use std::mem;
use value_steps::{Halt, Stage};

/// Where a step has led. An error comes where memory ran short.
pub fn turned(stepped: Result<(), Halt>) -> Result<Turned, AllocError>
    ensures { IsTurned stepped result }
{
    match stepped {
        Ok(()) => Ok(Turned::On),
        Err(Halt::Ended(ending)) => Ok(Turned::Over(ending)),
        Err(Halt::Short) => Ok(Turned::Short),
        Err(Halt::Memory) => Err(AllocError),
    }
}

/// A stage with these words as answers, and all that the other one has.
pub fn lent<'t>(alloc: Global, stage: &mut Stage<'_>, told: &'t [u64]) -> Stage<'t>
    ensures { stage_seen result ≡ telling_stage told.now (stage_seen stage.old) }
{
    Stage {
        left: stage.left,
        drawn: stage.drawn,
        made: stage.made,
        gates: mem::replace(&mut stage.gates, Vec::new(alloc)),
        events: mem::replace(&mut stage.events, Vec::new(alloc)),
        opened: mem::replace(&mut stage.opened, Vec::new(alloc)),
        answers: told,
    }
}

/// A stage without its answers.
pub fn given_back<'s>(stage: Stage<'_>) -> Stage<'s>
    ensures { stage_seen result ≡ telling_stage [] (stage_seen stage.entry) }
{
    let Stage {
        left,
        drawn,
        made,
        gates,
        events,
        opened,
        ..
    } = stage;
    Stage {
        left,
        drawn,
        made,
        gates,
        events,
        opened,
        answers: &[],
    }
}
