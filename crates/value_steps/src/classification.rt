// Public values where private ones are wanted.
ghost use Rattle.std.specs.Prelude.{◌≤◌};
ghost use Rattle.language_model.specs.Operations.{classified, wanted};
ghost use Rattle.value_steps.specs.Steps.{Does, itself};
ghost use Rattle.value_steps.specs.Views.{stage_seen, value_seen};

use crate::gating::number_of;
use crate::halt::Halt;
use crate::stage::Stage;
use crate::steps::charged;
use crate::value::{Secrecy, Value};
use std::alloc::Global;

/// A public value as a private one.
fn classified(alloc: Global, stage: &mut Stage<'_>, value: Value) -> Result<Value, Halt>
    ensures step { Does value_seen (classified (value_seen value)) (stage_seen stage.old) result (stage_seen stage.new) }
    ensures spends { stage.new.left ≤ stage.old.left }
{
    match value.secrecy {
        Secrecy::Private(_) => Ok(value),
        Secrecy::Plain => {
            charged(stage, value.size())?;
            let number = number_of(alloc, stage, &value)?;
            Ok(value.into_hidden(number))
        }
    }
}

/// A value that is wanted as a private one, or as it is: a public one is classified.
pub fn wanted(
    alloc: Global,
    stage: &mut Stage<'_>,
    private: bool,
    value: Value,
) -> Result<Value, Halt>
    ensures step { Does value_seen (wanted private (value_seen value)) (stage_seen stage.old) result (stage_seen stage.new) }
    ensures spends { stage.new.left ≤ stage.old.left }
{
    if private {
        classified(alloc, stage, value)
    } else {
        Ok(value)
    }
}
