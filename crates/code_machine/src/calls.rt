// How a function is called.
ghost use Rattle.std.specs.Prelude.{◌≡◌, ◌≤◌, IfOk, length, map, sum};
ghost use Rattle.language_model.specs.Evaluation.{array_elements};
ghost use Rattle.named_values.specs.Machine.{filled_with, values_at};
ghost use Rattle.value_steps.specs.Steps.{Does, itself};
ghost use Rattle.value_steps.specs.Views.{stage_seen, value_seen};
ghost use Rattle.code_machine.specs.Parts.{call_charged};
ghost use Rattle.code_machine.specs.Standing.{AreAllThere, kinds_at};
ghost use Rattle.code_machine.specs.Views.{all_kept, registers_seen};

use crate::begin::{filled, kinds_at};
use crate::machine::Machine;
use bytecode::{FunctionPlace, Register};
use sc_text::TrapKind;
use std::alloc::{AllocError, Global};
use value_steps::{Halt, MOST_CALLS, Stage, Value, charge, charge_elements, test_at};
use verified_code::Verified;

/// How many elements the arrays among these registers have together.
fn array_elements(machine: &Machine, arguments: &[Register]) -> u128
    requires { AreAllThere machine.now arguments.now }
    ensures { result ≡ sum (map array_elements (all_kept machine.now arguments.now)) }
{
    let mut count = 0;
    for argument in arguments {
        count += machine.register(*argument).array_elements() as u128;
    }
    count
}

/// Charges a call, where there is room for one more: 1, and then the elements of its arrays.
pub(crate) fn charge_call(
    machine: &Machine,
    stage: &mut Stage<'_>,
    line: u32,
    arguments: &[Register],
) -> Result<(), Halt>
    requires { AreAllThere machine.now arguments.now }
    ensures { Does itself (call_charged (length machine.now.callers.items) line (all_kept machine.now arguments.now))
        (stage_seen stage.old) result (stage_seen stage.new) }
{
    charge(stage, 1)?;
    test_at(
        stage,
        machine.callers.len() < MOST_CALLS,
        TrapKind::Depth,
        line,
    )?;
    charge_elements(stage, array_elements(machine, arguments))
}

/// The values of registers, in memory of their own.
fn values_at(
    alloc: Global,
    machine: &Machine,
    arguments: &[Register],
) -> Result<Vec<Value>, AllocError>
    requires { AreAllThere machine.now arguments.now }
    ensures { IfOk result (λ vs. map value_seen vs.items ≡ all_kept machine.now arguments.now) }
{
    let mut values = Vec::new(alloc);
    for argument in arguments {
        values.push(machine.copied(alloc, *argument)?)?;
    }
    Ok(values)
}

/// The registers of a called function: copies of the arguments, and what the others begin as.
pub(crate) fn registers_for(
    alloc: Global,
    code: &Verified,
    machine: &Machine,
    function: FunctionPlace,
    arguments: &[Register],
) -> Result<Vec<Value>, AllocError>
    requires { AreAllThere machine.now arguments.now }
    ensures registers { IfOk result (λ vs. registers_seen vs.items
        ≡ filled_with (kinds_at code.now function.0) (all_kept machine.now arguments.now)) }
    ensures enough { IfOk result (λ vs. length (kinds_at code.now function.0) ≤ length vs.items) }
{
    let values = values_at(alloc, machine, arguments)?;
    filled(alloc, kinds_at(code, function.0 as usize), values)
}
