// The values that steps make which have no line: what each reads is in the machine, and copied where an operation takes it. Public scalars that
// are only moved are written in place.
ghost use Rattle.std.specs.Prelude.{[], ◌∷◌, false, IfOk};
ghost use Rattle.program_trees.specs.Shapes.{shape_of};
ghost use Rattle.language_model.specs.Effects.{Stage as Reached, done};
ghost use Rattle.language_model.specs.Operations as row;
ghost use Rattle.language_model.specs.Values.{plain};
ghost use Rattle.bytecode.specs.Raw.{RawCode};
ghost use Rattle.named_values.specs.Machine.{next};
ghost use Rattle.value_steps.specs.Steps.{Does};
ghost use Rattle.value_steps.specs.Views.{stage_seen, value_seen, world_seen};
ghost use Rattle.code_machine.specs.Changes.{HasEnough, IsSafe, changed};
ghost use Rattle.code_machine.specs.Parts as Parts;
ghost use Rattle.code_machine.specs.Views.{kept, machine_seen};
ghost use Rattle.code_machine.specs.Standing.{IsThere};

use crate::change::Change;
use crate::machine::Machine;
use crate::scalars::{copy_into, scalar_into};
use bytecode::Register;
use program_trees::{Cast, DataType, Shape};
use std::alloc::Global;
use value_steps::{
    Halt, Stage, Value, World, cast_to, charged, declassified, negated, size_told, summed, wanted,
};

/// A public scalar goes to a register.
pub(crate) fn literal(
    alloc: Global,
    machine: &Machine,
    to: Register,
    element: DataType,
    word: u64,
) -> Result<Change, Halt>
    requires { IsThere machine.now to }
    ensures step { (code : RawCode) (s : Reached) → Does (changed code (machine_seen code machine.now))
        (done (next to.0 (plain (shape_of element false) (word ∷ [])) (machine_seen code machine.now))) s result s }
    ensures safe { IfOk result (IsSafe machine.now) }
    ensures enough { (code : RawCode) → IfOk result (HasEnough code) }
{
    let shape = Shape {
        element,
        array: false,
    };
    let change = scalar_into(alloc, machine, to, shape, word)?;
    Ok(change)
}

/// The value of a register is moved into another one.
pub(crate) fn moved(
    alloc: Global,
    machine: &Machine,
    to: Register,
    source: Register,
) -> Result<Change, Halt>
    requires to_there { IsThere machine.now to }
    requires source_there { IsThere machine.now source }
    ensures step { (code : RawCode) (s : Reached) → Does (changed code (machine_seen code machine.now))
        (done (next to.0 (kept machine.now source) (machine_seen code machine.now))) s result s }
    ensures safe { IfOk result (IsSafe machine.now) }
    ensures enough { (code : RawCode) → IfOk result (HasEnough code) }
{
    let change = copy_into(alloc, machine, to, source)?;
    Ok(change)
}

/// The value of a register is stored in the register of a variable: this is charged.
pub(crate) fn stored(
    alloc: Global,
    machine: &Machine,
    stage: &mut Stage<'_>,
    to: Register,
    source: Register,
) -> Result<Change, Halt>
    requires to_there { IsThere machine.now to }
    requires source_there { IsThere machine.now source }
    ensures step { (code : RawCode) → Does (changed code (machine_seen code machine.now))
        (Parts.stored to.0 (kept machine.now source) (machine_seen code machine.now)) (stage_seen stage.old) result (stage_seen stage.new) }
    ensures safe { IfOk result (IsSafe machine.now) }
    ensures enough { (code : RawCode) → IfOk result (HasEnough code) }
{
    charged(stage, machine.register(source).size())?;
    let change = copy_into(alloc, machine, to, source)?;
    Ok(change)
}

/// The negation of a register.
pub(crate) fn negation(
    alloc: Global,
    machine: &Machine,
    stage: &mut Stage<'_>,
    source: Register,
) -> Result<Value, Halt>
    requires { IsThere machine.now source }
    ensures { Does value_seen (row.negated (kept machine.now source)) (stage_seen stage.old) result (stage_seen stage.new) }
{
    let value = machine.copied(alloc, source)?;
    negated(alloc, stage, value)
}

/// A register cast.
pub(crate) fn cast_value(
    alloc: Global,
    world: &World<'_>,
    machine: &Machine,
    stage: &mut Stage<'_>,
    cast: Cast,
    source: Register,
) -> Result<Value, Halt>
    requires { IsThere machine.now source }
    ensures { Does value_seen (row.cast_to (world_seen world.now) cast (kept machine.now source)) (stage_seen stage.old) result (stage_seen stage.new) }
{
    let value = machine.copied(alloc, source)?;
    cast_to(alloc, world, stage, cast, value)
}

/// A private value of a public one.
pub(crate) fn classified(
    alloc: Global,
    machine: &Machine,
    stage: &mut Stage<'_>,
    source: Register,
) -> Result<Value, Halt>
    requires { IsThere machine.now source }
    ensures { Does value_seen (row.classified (kept machine.now source)) (stage_seen stage.old) result (stage_seen stage.new) }
{
    let value = machine.copied(alloc, source)?;
    wanted(alloc, stage, true, value)
}

/// The size of an array.
pub(crate) fn size_of(
    alloc: Global,
    machine: &Machine,
    stage: &mut Stage<'_>,
    source: Register,
) -> Result<Value, Halt>
    requires { IsThere machine.now source }
    ensures { Does value_seen (row.size_told (kept machine.now source)) (stage_seen stage.old) result (stage_seen stage.new) }
{
    size_told(alloc, stage, machine.register(source))
}

/// The sum of an array.
pub(crate) fn sum_of(
    alloc: Global,
    machine: &Machine,
    stage: &mut Stage<'_>,
    source: Register,
) -> Result<Value, Halt>
    requires { IsThere machine.now source }
    ensures { Does value_seen (row.summed (kept machine.now source)) (stage_seen stage.old) result (stage_seen stage.new) }
{
    summed(alloc, stage, machine.register(source))
}

/// The opened value of a register.
pub(crate) fn opened(
    alloc: Global,
    world: &World<'_>,
    machine: &Machine,
    stage: &mut Stage<'_>,
    source: Register,
) -> Result<Value, Halt>
    requires { IsThere machine.now source }
    ensures { Does value_seen (row.declassified (world_seen world.now) (kept machine.now source)) (stage_seen stage.old) result (stage_seen stage.new) }
{
    let value = machine.copied(alloc, source)?;
    declassified(alloc, world, stage, value)
}
