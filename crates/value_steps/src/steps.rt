// The steps of which operations are made: charges and tests.
ghost use Rattle.std.specs.Prelude.{◌≤◌, ◌+◌, is_ok, OnOk, IsTrue, if◌then◌else◌};
ghost use Rattle.language_model.specs.Effects.{charge, test};
ghost use Rattle.language_model.specs.Operations.{charged, no_traps, not_too_large};
ghost use Rattle.value_steps.specs.Steps.{Does, itself};
ghost use Rattle.value_steps.specs.Views.{stage_seen};

use crate::halt::Halt;
use crate::stage::Stage;
use sc_text::{Ending, TrapKind};

/// No array has more elements.
const LARGEST: u64 = 1_048_576;

/// So many calls may stand in one another, beside `main`.
pub const MOST_CALLS: usize = 63;

/// Charges `n`. A charge over what is left of the budget isn't made, and ends the run.
pub fn charge(stage: &mut Stage<'_>, n: u64) -> Result<(), Halt>
    ensures step { Does itself (charge n) (stage_seen stage.old) result (stage_seen stage.new) }
    ensures spends { stage.new.left + (if is_ok result then n else 0) ≤ stage.old.left }
{
    if n <= stage.left {
        stage.left -= n;
        Ok(())
    } else {
        Err(Halt::Ended(Ending::Budget))
    }
}

/// Charges a call for the elements of its arrays, which may be more than a budget can be.
pub fn charge_elements(stage: &mut Stage<'_>, count: u128) -> Result<(), Halt>
    ensures step { Does itself (charge count) (stage_seen stage.old) result (stage_seen stage.new) }
    ensures spends { stage.new.left ≤ stage.old.left }
{
    if count <= stage.left as u128 {
        charge(stage, count as u64)
    } else {
        Err(Halt::Ended(Ending::Budget))
    }
}

/// A test whose failure is a trap, where a run stands.
pub fn test_at(stage: &Stage<'_>, holds: bool, kind: TrapKind, line: u32) -> Result<(), Halt>
    ensures step { Does itself (test holds kind line) (stage_seen stage.now) result (stage_seen stage.now) }
    ensures passed { OnOk result (IsTrue holds) }
{
    if holds {
        Ok(())
    } else {
        Err(Halt::Ended(Ending::Trap { kind, line }))
    }
}

/// Charges an operation that has no traps, whose result has `n` elements.
pub fn charged(stage: &mut Stage<'_>, n: u64) -> Result<(), Halt>
    ensures step { Does itself (charged no_traps n) (stage_seen stage.old) result (stage_seen stage.new) }
    ensures spends { stage.new.left ≤ stage.old.left }
{
    charge(stage, 1)?;
    charge(stage, n.saturating_sub(1))
}

/// Charges an operation whose result has `n` elements, which are too many for an array beyond 1,048,576.
pub(crate) fn charged_array(stage: &mut Stage<'_>, line: u32, n: u64) -> Result<(), Halt>
    ensures step { Does itself (charged (not_too_large line n) n) (stage_seen stage.old) result (stage_seen stage.new) }
    ensures spends { stage.new.left ≤ stage.old.left }
    ensures fits { OnOk result (n ≤ 1048576) }
{
    charge(stage, 1)?;
    test_at(stage, n <= LARGEST, TrapKind::Large, line)?;
    charge(stage, n.saturating_sub(1))
}
