// The change that each step makes.
ghost use Rattle.std.specs.Prelude.{◌+◌, ◌<◌, ◌^◌, IfOk, Some, length, map};
ghost use Rattle.language_model.specs.Effects.{Stage as Reached, World as Around};
ghost use Rattle.bytecode.specs.Raw.{RawCode};
ghost use Rattle.verified_code.specs.InMemory.{place_of, step_in};
ghost use Rattle.verified_code.specs.Settled.{settled};
ghost use Rattle.verified_code.specs.Steps as steps;
ghost use Rattle.named_values.specs.Machine.{step};
ghost use Rattle.value_steps.specs.Steps.{Does};
ghost use Rattle.value_steps.specs.Views.{stage_seen, world_seen};
ghost use Rattle.code_machine.specs.Changes.{HasEnough, IsSafe, changed, left};
ghost use Rattle.code_machine.specs.Standing.{AreAllThere, AreThere, IsThereIfAny};
ghost use Rattle.code_machine.specs.Views.{machine_seen};

use crate::arrays::{PutStep, put};
use crate::calls::{charge_call, registers_for};
use crate::change::{Change, into_register};
use crate::machine::Machine;
use crate::operands::{BinaryStep, appended, bits, combined, element, found, repeated};
use crate::places::{assert_at, branch, into_place};
use crate::texts::{argument, publish};
use crate::values::{
    cast_value, classified, literal, moved, negation, opened, size_of, stored, sum_of,
};
use bytecode::{FunctionPlace, Register};
use program_trees::Operation;
use sc_text::Ending;
use std::alloc::Global;
use value_steps::{Halt, Stage, Value, World};
use verified_code::{Step, Verified};

/// A call, with the line of its construct: of which function, the register of its result, if one is wanted, and those of its arguments.
#[derive(Clone, Copy)]
struct CallStep<'c> {
    line: u32,
    function: FunctionPlace,
    to: Option<Register>,
    arguments: &'c [Register],
}

/// A call is charged, and the called function begins.
fn enter(
    alloc: Global,
    code: &Verified,
    machine: &Machine,
    stage: &mut Stage<'_>,
    call: CallStep<'_>,
) -> Result<Change, Halt>
    requires to_there { IsThereIfAny machine.now call.to }
    requires arguments_there { AreAllThere machine.now call.arguments.now }
    ensures step { (w : Around) → Does (changed code.now (machine_seen code.now machine.now))
        (step w (settled code.now) (Some (steps.Call call.entry.line call.entry.function.0 (place_of call.entry.to)
        (map (λ r. r.0) call.entry.arguments.now))) (machine_seen code.now machine.now))
        (stage_seen stage.old) result (stage_seen stage.new) }
    ensures safe { IfOk result (IsSafe machine.now) }
    ensures enough { IfOk result (HasEnough code.now) }
{
    charge_call(machine, stage, call.line, call.arguments)?;
    let registers = registers_for(alloc, code, machine, call.function, call.arguments)?;
    Ok(Change::Enter(call.function, call.to, registers))
}

/// A return: the last caller goes on, with the value of a register or one that nobody reads. Where `main` is left the run is done.
fn leave(alloc: Global, machine: &Machine, source: Option<Register>) -> Result<Change, Halt>
    requires { IsThereIfAny machine.now source }
    ensures step { (code : RawCode) (s : Reached) → Does (changed code (machine_seen code machine.now))
        (left (place_of source) (machine_seen code machine.now)) s result s }
    ensures safe { IfOk result (IsSafe machine.now) }
    ensures enough { (code : RawCode) → IfOk result (HasEnough code) }
{
    if machine.callers.is_empty() {
        return Err(Halt::Ended(Ending::Done));
    }
    let unread = Value::unread(alloc)?;
    Ok(Change::Leave(source, unread))
}

/// The change that a step makes.
pub(crate) fn change_of(
    alloc: Global,
    world: &World<'_>,
    code: &Verified,
    machine: &Machine,
    stage: &mut Stage<'_>,
    coming: Step<'_>,
) -> Result<Change, Halt>
    requires there { AreThere (length machine.now.registers.items) (step_in coming) }
    requires room { machine.now.place + 1 < 2 ^ 64 }
    ensures step { Does (changed code.now (machine_seen code.now machine.now))
        (step (world_seen world.now) (settled code.now) (Some (step_in coming.entry)) (machine_seen code.now machine.now))
        (stage_seen stage.old) result (stage_seen stage.new) }
    ensures safe { IfOk result (IsSafe machine.now) }
    ensures enough { IfOk result (HasEnough code.now) }
{
    match coming {
        Step::Literal { to, element, word } => literal(alloc, machine, to, element, word),
        Step::Move { to, source } => moved(alloc, machine, to, source),
        Step::Store { to, source } => stored(alloc, machine, stage, to, source),
        Step::Binary {
            line,
            operator,
            operands,
            to,
            left,
            right,
        } => {
            let operation = Operation {
                line,
                operator,
                operands,
            };
            let binary = BinaryStep {
                operation,
                left,
                right,
            };
            into_register(to, combined(alloc, world, machine, stage, binary))
        }
        Step::Not { to, source } => into_register(to, negation(alloc, machine, stage, source)),
        Step::Cast { cast, to, source } => into_register(
            to,
            cast_value(alloc, world, machine, stage, cast, source),
        ),
        Step::Classify { to, source } => {
            into_register(to, classified(alloc, machine, stage, source))
        }
        Step::Fill {
            line,
            to,
            size,
            value,
        } => into_register(to, repeated(alloc, machine, stage, line, size, value)),
        Step::At {
            line,
            to,
            array,
            index,
        } => into_register(to, element(alloc, machine, stage, line, array, index)),
        Step::Put {
            line,
            array,
            index,
            value,
        } => {
            let element = PutStep {
                line,
                array,
                index,
                value,
            };
            put(alloc, machine, stage, element)
        }
        Step::Size { to, source } => into_register(to, size_of(alloc, machine, stage, source)),
        Step::Cat {
            line,
            to,
            left,
            right,
        } => into_register(to, appended(alloc, machine, stage, line, left, right)),
        Step::Sum { to, source } => into_register(to, sum_of(alloc, machine, stage, source)),
        Step::Bits { line, to, source } => {
            into_register(to, bits(alloc, world, machine, stage, line, source))
        }
        Step::Lookup {
            line,
            to,
            array,
            index,
        } => into_register(to, found(alloc, world, machine, stage, line, array, index)),
        Step::Declassify { to, source } => {
            into_register(to, opened(alloc, world, machine, stage, source))
        }
        Step::Argument {
            line,
            kind,
            text,
            to,
        } => into_register(to, argument(alloc, world, stage, line, kind, text)),
        Step::Publish { text, source } => into_place(
            machine.place + 1,
            publish(alloc, world, machine, stage, text, source),
        ),
        Step::Assert { line, condition } => into_place(
            machine.place + 1,
            assert_at(machine, stage, line, condition),
        ),
        Step::Branch {
            condition,
            value,
            target,
        } => branch(machine, stage, condition, value, target),
        Step::Jump { target } => Ok(Change::Place(target.0 as usize)),
        Step::Call {
            line,
            function,
            to,
            arguments,
        } => {
            let call = CallStep {
                line,
                function,
                to,
                arguments,
            };
            enter(alloc, code, machine, stage, call)
        }
        Step::Return { source } => leave(alloc, machine, Some(source)),
        Step::ReturnNone => leave(alloc, machine, None),
    }
}
