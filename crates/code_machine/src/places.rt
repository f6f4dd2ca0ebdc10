// Steps that only lead to another place.
ghost use Rattle.std.specs.Prelude.{◌≡◌, ◌+◌, ◌<◌, ◌^◌, IfOk};
ghost use Rattle.language_model.specs.Operations as row;
ghost use Rattle.bytecode.specs.Raw.{RawCode};
ghost use Rattle.named_values.specs.Machine.{same_truth};
ghost use Rattle.value_steps.specs.Steps.{Does, itself};
ghost use Rattle.value_steps.specs.Views.{stage_seen};
ghost use Rattle.code_machine.specs.Changes.{HasEnough, IsSafe, changed, goes_on_at};
ghost use Rattle.code_machine.specs.Parts.{branched};
ghost use Rattle.code_machine.specs.Views.{kept, machine_seen};
ghost use Rattle.code_machine.specs.Standing.{IsThere};

use crate::change::Change;
use crate::machine::Machine;
use bytecode::{JumpTarget, Register};
use value_steps::{Halt, Stage, asserted, tested};

/// The change to a place, where what came before it went well.
pub(crate) fn into_place(place: usize, done: Result<(), Halt>) -> Result<Change, Halt>
    ensures { result ≡ goes_on_at place done }
{
    match done {
        Ok(()) => Ok(Change::Place(place)),
        Err(halt) => Err(halt),
    }
}

/// An assertion that fails is a trap.
pub(crate) fn assert_at(
    machine: &Machine,
    stage: &mut Stage<'_>,
    line: u32,
    condition: Register,
) -> Result<(), Halt>
    requires { IsThere machine.now condition }
    ensures { Does itself (row.asserted line (kept machine.now condition)) (stage_seen stage.old) result (stage_seen stage.new) }
{
    asserted(stage, line, machine.register(condition))
}

fn same(left: bool, right: bool) -> bool
    ensures { result ≡ same_truth left right }
{
    left == right
}

/// A branch leads to its target where the condition is the value, and otherwise to the next place.
pub(crate) fn branch(
    machine: &Machine,
    stage: &mut Stage<'_>,
    condition: Register,
    value: bool,
    target: JumpTarget,
) -> Result<Change, Halt>
    requires there { IsThere machine.now condition }
    requires room { machine.now.place + 1 < 2 ^ 64 }
    ensures step { (code : RawCode) → Does (changed code (machine_seen code machine.now))
        (branched (kept machine.now condition) value target.0 (machine_seen code machine.now))
        (stage_seen stage.old) result (stage_seen stage.new) }
    ensures safe { IfOk result (IsSafe machine.now) }
    ensures enough { (code : RawCode) → IfOk result (HasEnough code) }
{
    let holds = tested(stage, machine.register(condition))?;
    if same(holds, value) {
        Ok(Change::Place(target.0 as usize))
    } else {
        Ok(Change::Place(machine.place + 1))
    }
}
