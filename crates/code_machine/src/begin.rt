// Where a function begins, and where code does.
ghost use Rattle.std.specs.Prelude.{◌≡◌, ◌≤◌, IfOk, Some, length, map, slice_get};
ghost use Rattle.verified_code.specs.Settled.{settled};
ghost use Rattle.named_values.specs.Machine.{begun, filled_with, start};
ghost use Rattle.value_steps.specs.Views.{value_seen};
ghost use Rattle.code_machine.specs.Standing.{Stands, kinds_at};
ghost use Rattle.code_machine.specs.Views.{machine_seen, registers_seen};

use crate::machine::Machine;
use bytecode::Kind;
use program_trees::Shape;
use std::alloc::{AllocError, Global};
use value_steps::Value;
use verified_code::Verified;

/// What a register of a kind begins as.
fn begun(alloc: Global, kind: Kind) -> Result<Value, AllocError>
    ensures { IfOk result (λ v. value_seen v ≡ begun (Some kind)) }
{
    let shape = Shape {
        element: kind.element,
        array: kind.array,
    };
    Value::never_stored(alloc, kind.secret, shape)
}

/// The registers of a function that is called: the arguments, and what the others begin as.
pub(crate) fn filled(
    alloc: Global,
    kinds: &[Kind],
    arguments: Vec<Value>,
) -> Result<Vec<Value>, AllocError>
    ensures registers { IfOk result (λ vs. registers_seen vs.items ≡ filled_with kinds.now (map value_seen arguments.items)) }
    ensures enough { IfOk result (λ vs. length kinds.now ≤ length vs.items) }
{
    let mut registers = arguments;
    for number in registers.len()..kinds.len() {
        registers.push(begun(alloc, kinds[number])?)?;
    }
    Ok(registers)
}

/// The kinds of the registers of a function; none where the function isn't there.
pub(crate) fn kinds_at(code: &Verified, function: usize) -> &[Kind]
    ensures { result.now ≡ kinds_at code.now function }
{
    match code.code().functions.get(function) {
        Some(own) => &own.registers,
        None => &[],
    }
}

/// The machine that begins `main`, function number 0. An error comes where memory runs short.
pub fn start(alloc: Global, code: &Verified) -> Result<Machine, AllocError>
    ensures begins { IfOk result (λ machine. machine_seen code.now machine ≡ start (settled code.now)) }
    ensures stands { IfOk result (Stands code.now) }
{
    let registers = filled(alloc, kinds_at(code, 0), Vec::new(alloc))?;
    Ok(Machine {
        function: 0,
        place: 0,
        registers,
        callers: Vec::new(alloc),
    })
}
