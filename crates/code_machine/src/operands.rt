// The values that steps with several operands make, and those that may trap. Operands are read in the machine where they stand.
ghost use Rattle.language_model.specs.Operations as row;
ghost use Rattle.value_steps.specs.Steps.{Does};
ghost use Rattle.value_steps.specs.Views.{stage_seen, value_seen, world_seen};
ghost use Rattle.code_machine.specs.Views.{kept};
ghost use Rattle.code_machine.specs.Standing.{IsThere};

use crate::machine::Machine;
use bytecode::Register;
use program_trees::Operation;
use std::alloc::Global;
use value_steps::{
    Applied, Halt, Stage, Value, World, bits_extracted, concatenated, element_of_array, filled,
    looked_up, operated,
};

/// An operation between two registers.
#[derive(Clone, Copy)]
pub(crate) struct BinaryStep {
    pub(crate) operation: Operation,
    pub(crate) left: Register,
    pub(crate) right: Register,
}

/// The result of an operation between two registers.
pub(crate) fn combined(
    alloc: Global,
    world: &World<'_>,
    machine: &Machine,
    stage: &mut Stage<'_>,
    binary: BinaryStep,
) -> Result<Value, Halt>
    requires left_there { IsThere machine.now binary.left }
    requires right_there { IsThere machine.now binary.right }
    ensures { Does value_seen (row.operated (world_seen world.now) binary.operation.line binary.operation.operator binary.operation.operands
        (kept machine.now binary.left) (kept machine.now binary.right)) (stage_seen stage.old) result (stage_seen stage.new) }
{
    let applied = Applied {
        operation: binary.operation,
        left: machine.register(binary.left),
        right: machine.register(binary.right),
    };
    operated(alloc, world, stage, &applied)
}

/// An array of equal elements.
pub(crate) fn repeated(
    alloc: Global,
    machine: &Machine,
    stage: &mut Stage<'_>,
    line: u32,
    size: Register,
    value: Register,
) -> Result<Value, Halt>
    requires size_there { IsThere machine.now size }
    requires value_there { IsThere machine.now value }
    ensures { Does value_seen (row.filled line (kept machine.now size) (kept machine.now value)) (stage_seen stage.old) result (stage_seen stage.new) }
{
    filled(
        alloc,
        stage,
        line,
        machine.register(size),
        machine.register(value),
    )
}

/// An element of an array. Nothing but the element is copied.
pub(crate) fn element(
    alloc: Global,
    machine: &Machine,
    stage: &mut Stage<'_>,
    line: u32,
    array: Register,
    index: Register,
) -> Result<Value, Halt>
    requires array_there { IsThere machine.now array }
    requires index_there { IsThere machine.now index }
    ensures { Does value_seen (row.element_of_array line (kept machine.now array) (kept machine.now index))
        (stage_seen stage.old) result (stage_seen stage.new) }
{
    element_of_array(
        alloc,
        stage,
        line,
        machine.register(array),
        machine.register(index),
    )
}

/// An array and another after it.
pub(crate) fn appended(
    alloc: Global,
    machine: &Machine,
    stage: &mut Stage<'_>,
    line: u32,
    left: Register,
    right: Register,
) -> Result<Value, Halt>
    requires left_there { IsThere machine.now left }
    requires right_there { IsThere machine.now right }
    ensures { Does value_seen (row.concatenated line (kept machine.now left) (kept machine.now right)) (stage_seen stage.old) result (stage_seen stage.new) }
{
    let first = machine.copied(alloc, left)?;
    concatenated(alloc, stage, line, first, machine.register(right))
}

/// The bits of numbers.
pub(crate) fn bits(
    alloc: Global,
    world: &World<'_>,
    machine: &Machine,
    stage: &mut Stage<'_>,
    line: u32,
    source: Register,
) -> Result<Value, Halt>
    requires { IsThere machine.now source }
    ensures { Does value_seen (row.bits_extracted (world_seen world.now) line (kept machine.now source)) (stage_seen stage.old) result (stage_seen stage.new) }
{
    bits_extracted(alloc, world, stage, line, machine.register(source))
}

/// The elements of a private array at private indices. Neither is copied.
pub(crate) fn found(
    alloc: Global,
    world: &World<'_>,
    machine: &Machine,
    stage: &mut Stage<'_>,
    line: u32,
    array: Register,
    index: Register,
) -> Result<Value, Halt>
    requires array_there { IsThere machine.now array }
    requires index_there { IsThere machine.now index }
    ensures { Does value_seen (row.looked_up (world_seen world.now) line (kept machine.now array) (kept machine.now index))
        (stage_seen stage.old) result (stage_seen stage.new) }
{
    looked_up(
        alloc,
        world,
        stage,
        line,
        machine.register(array),
        machine.register(index),
    )
}
