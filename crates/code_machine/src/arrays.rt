// How an element of an array is written.
ghost use Rattle.std.specs.Prelude.{IfOk};
ghost use Rattle.language_model.specs.Operations as row;
ghost use Rattle.bytecode.specs.Raw.{RawCode};
ghost use Rattle.value_steps.specs.Steps.{Does};
ghost use Rattle.value_steps.specs.Views.{stage_seen};
ghost use Rattle.code_machine.specs.Changes.{HasEnough, IsSafe, changed};
ghost use Rattle.code_machine.specs.Parts.{into};
ghost use Rattle.code_machine.specs.Views.{kept, machine_seen};
ghost use Rattle.code_machine.specs.Standing.{IsThere};

use crate::change::Change;
use crate::machine::Machine;
use bytecode::Register;
use std::alloc::Global;
use value_steps::{Halt, Stage, element_written};

/// An element of an array that is written, with the line of its construct: the registers of the array, the index and the element.
#[derive(Clone, Copy)]
pub(crate) struct PutStep {
    pub(crate) line: u32,
    pub(crate) array: Register,
    pub(crate) index: Register,
    pub(crate) value: Register,
}

/// An element of an array is written. The array is changed in place, also a private one: the gate's number becomes its own.
pub(crate) fn put(
    alloc: Global,
    machine: &Machine,
    stage: &mut Stage<'_>,
    element: PutStep,
) -> Result<Change, Halt>
    requires array_there { IsThere machine.now element.array }
    requires index_there { IsThere machine.now element.index }
    requires value_there { IsThere machine.now element.value }
    ensures step { (code : RawCode) → Does (changed code (machine_seen code machine.now))
        (into element.array.0 (machine_seen code machine.now) (row.with_element element.line (kept machine.now element.array)
        (kept machine.now element.index) (kept machine.now element.value)))
        (stage_seen stage.old) result (stage_seen stage.new) }
    ensures safe { IfOk result (IsSafe machine.now) }
    ensures enough { (code : RawCode) → IfOk result (HasEnough code) }
{
    let written = element_written(
        alloc,
        stage,
        element.line,
        machine.register(element.array),
        machine.register(element.index),
        machine.register(element.value),
    )?;
    Ok(Change::Element(element.array, written))
}
