// Conditions.
ghost use Rattle.std.specs.Prelude.{◌≡◌, ◌≤◌, ◌<◌, IfOk};
ghost use Rattle.language_model.specs.Operations.{tested, asserted};
ghost use Rattle.language_model.specs.Values.{is_true};
ghost use Rattle.value_steps.specs.Steps.{Does, itself};
ghost use Rattle.value_steps.specs.Views.{stage_seen, value_seen};

use crate::halt::Halt;
use crate::stage::Stage;
use crate::steps::{charge, test_at};
use crate::value::Value;
use sc_text::TrapKind;

/// Whether a public value is true.
fn is_true(value: &Value) -> bool
    ensures { result ≡ is_true (value_seen value.now) }
{
    value.seen_word() != 0
}

/// Whether a condition is true. A private value is never looked at: it counts as false.
pub fn tested(stage: &mut Stage<'_>, value: &Value) -> Result<bool, Halt>
    ensures step { Does itself (tested (value_seen value.now)) (stage_seen stage.old) result (stage_seen stage.new) }
    ensures spends { IfOk result (λ _. stage.new.left < stage.old.left) }
    ensures keeps { stage.new.left ≤ stage.old.left }
{
    charge(stage, 1)?;
    Ok(is_true(value))
}

/// A condition that must be true.
pub fn asserted(stage: &mut Stage<'_>, line: u32, value: &Value) -> Result<(), Halt>
    ensures step { Does itself (asserted line (value_seen value.now)) (stage_seen stage.old) result (stage_seen stage.new) }
    ensures spends { stage.new.left ≤ stage.old.left }
{
    charge(stage, 1)?;
    test_at(stage, is_true(value), TrapKind::Assert, line)
}
