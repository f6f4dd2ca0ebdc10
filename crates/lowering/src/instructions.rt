// The instruction of a step, where its numbers are small enough.
ghost use Rattle.std.specs.Prelude.{◌≡◌, ◌++◌, ◌&&◌, IfErr, IfOk, map};
ghost use Rattle.std.specs.List.{flat_map, list_all};
ghost use Rattle.bytecode.specs.InMemory.{raw_function, raw_instruction, result_register};
ghost use Rattle.bytecode.specs.Written.{body_numbers, head_numbers, instruction_numbers};
ghost use Rattle.code_model.specs.Instructions.{instruction, raw_function as raw_of, register_or_nowhere};
ghost use Rattle.lowered_expressions.specs.Views.{step_seen};
ghost use Rattle.lowering.specs.inner.Naming.{texts};
ghost use Rattle.lowering.specs.Narrow.{IsJust, are_short, capped, capped_instruction, is_short};
ghost use Rattle.lowering.specs.inner.Views.{function_seen};

use crate::errors::LowerErr;
use crate::functions::FunctionSteps;
use crate::lists::push;
use crate::naming::{Names, place_among};
use bytecode::{CodeFunction, FunctionPlace, Instruction, JumpTarget, NamePlace, Register};
use lowered_expressions::Step;
use std::alloc::{AllocError, Global};

// ---- Numbers

fn is_short(number: usize) -> bool
    ensures { result ≡ is_short number }
{
    number < 65_536
}

fn are_two_short(first: usize, second: usize) -> bool
    ensures { result ≡ (is_short first && is_short second) }
{
    is_short(first) && is_short(second)
}

fn are_three_short(first: usize, second: usize, third: usize) -> bool
    ensures { result ≡ (is_short first && (is_short second && is_short third)) }
{
    is_short(first) && are_two_short(second, third)
}

fn short(number: usize) -> u16
    ensures { result ≡ capped number }
{
    number.min(65_535) as u16
}

fn register(number: usize) -> Register
    ensures { result.0 ≡ capped number }
{
    Register(short(number))
}

fn place_target(number: usize) -> JumpTarget
    ensures { result.0 ≡ capped number }
{
    JumpTarget(short(number))
}

fn name_place(number: usize) -> NamePlace
    ensures { result.0 ≡ capped number }
{
    NamePlace(short(number))
}

// The register of what a call gives; none has the number 65,535.
fn result_register(to: Option<usize>) -> Option<Register>
    ensures { result_register result ≡ capped (register_or_nowhere to) }
{
    match to {
        None => None,
        Some(number) => Some(register(number)),
    }
}

fn all_registers(alloc: Global, numbers: &[usize]) -> Result<Vec<Register>, AllocError>
    ensures { IfOk result (λ registers. map (λ r. r.0) registers.items ≡ map capped numbers.now) }
{
    let mut registers = Vec::with_capacity(alloc, numbers.len())?;
    for number in numbers {
        registers.push(register(*number))?;
    }
    Ok(registers)
}

fn are_all_short(numbers: &[usize]) -> bool
    ensures { result ≡ list_all is_short numbers.now }
{
    numbers.iter().all(|number| is_short(*number))
}

fn is_short_result(to: Option<usize>) -> bool
    ensures { result ≡ is_short (register_or_nowhere to) }
{
    match to {
        None => true,
        Some(number) => is_short(number),
    }
}

// ---- Instructions

// Whether all numbers of two bytes are small enough.
fn are_short(names: &Names<'_>, step: &Step<'_>) -> bool
    ensures { result ≡ are_short (instruction (texts names.now) (step_seen step.now)) }
{
    match *step {
        Step::ReturnNone => true,
        Step::Literal { to, .. } => is_short(to),
        Step::Jump { target } => is_short(target),
        Step::Assert { condition, .. } => is_short(condition),
        Step::Return { source } => is_short(source),
        Step::Move { to, source }
        | Step::Store { to, source }
        | Step::Not { to, source }
        | Step::Cast { to, source, .. }
        | Step::Classify { to, source }
        | Step::Size { to, source }
        | Step::Sum { to, source }
        | Step::Bits { to, source, .. }
        | Step::Declassify { to, source } => are_two_short(to, source),
        Step::Binary {
            to,
            left,
            right,
            ..
        }
        | Step::Cat {
            to,
            left,
            right,
            ..
        } => are_three_short(to, left, right),
        Step::Fill {
            to,
            size,
            value,
            ..
        } => are_three_short(to, size, value),
        Step::At {
            to,
            array,
            index,
            ..
        }
        | Step::Lookup {
            to,
            array,
            index,
            ..
        } => are_three_short(to, array, index),
        Step::Put {
            array,
            index,
            value,
            ..
        } => are_three_short(array, index, value),
        Step::Argument { text, to, .. } => are_two_short(to, place_among(names, text)),
        Step::Publish { text, source } => are_two_short(place_among(names, text), source),
        Step::Branch {
            condition,
            target,
            ..
        } => are_two_short(condition, target),
        Step::Call {
            function,
            to,
            ref arguments,
            ..
        } => is_short(function) && (is_short_result(to) && are_all_short(arguments)),
    }
}

// The instruction of a step; a number of two bytes is the largest of these where it is larger.
fn capped_instruction(
    alloc: Global,
    names: &Names<'_>,
    step: &Step<'_>,
) -> Result<Instruction, AllocError>
    ensures { IfOk result (λ i. raw_instruction i ≡ capped_instruction (instruction (texts names.now) (step_seen step.now))) }
{
    match *step {
        Step::Literal { to, word, .. } => Ok(Instruction::Literal {
            to: register(to),
            word,
        }),
        Step::Move { to, source } => Ok(Instruction::Move {
            to: register(to),
            source: register(source),
        }),
        Step::Store { to, source } => Ok(Instruction::Store {
            to: register(to),
            source: register(source),
        }),
        Step::Binary {
            operator,
            to,
            left,
            right,
            line,
            ..
        } => Ok(Instruction::Binary {
            sign: operator.sign(),
            to: register(to),
            left: register(left),
            right: register(right),
            line,
        }),
        Step::Not { to, source } => Ok(Instruction::Not {
            to: register(to),
            source: register(source),
        }),
        Step::Cast { to, source, .. } => Ok(Instruction::Cast {
            to: register(to),
            source: register(source),
        }),
        Step::Classify { to, source } => Ok(Instruction::Classify {
            to: register(to),
            source: register(source),
        }),
        Step::Fill {
            to,
            size,
            value,
            line,
        } => Ok(Instruction::Fill {
            to: register(to),
            size: register(size),
            value: register(value),
            line,
        }),
        Step::At {
            to,
            array,
            index,
            line,
        } => Ok(Instruction::At {
            to: register(to),
            array: register(array),
            index: register(index),
            line,
        }),
        Step::Put {
            array,
            index,
            value,
            line,
        } => Ok(Instruction::Put {
            array: register(array),
            index: register(index),
            value: register(value),
            line,
        }),
        Step::Size { to, source } => Ok(Instruction::Size {
            to: register(to),
            source: register(source),
        }),
        Step::Cat {
            to,
            left,
            right,
            line,
        } => Ok(Instruction::Cat {
            to: register(to),
            left: register(left),
            right: register(right),
            line,
        }),
        Step::Sum { to, source } => Ok(Instruction::Sum {
            to: register(to),
            source: register(source),
        }),
        Step::Bits { to, source, line } => Ok(Instruction::Bits {
            to: register(to),
            source: register(source),
            line,
        }),
        Step::Lookup {
            to,
            array,
            index,
            line,
        } => Ok(Instruction::Lookup {
            to: register(to),
            array: register(array),
            index: register(index),
            line,
        }),
        Step::Declassify { to, source } => Ok(Instruction::Declassify {
            to: register(to),
            source: register(source),
        }),
        Step::Assert { condition, line } => Ok(Instruction::Assert {
            condition: register(condition),
            line,
        }),
        Step::Branch {
            condition,
            value,
            target,
        } => Ok(Instruction::Branch {
            condition: register(condition),
            value,
            target: place_target(target),
        }),
        Step::Jump { target } => Ok(Instruction::Jump {
            target: place_target(target),
        }),
        Step::Return { source } => Ok(Instruction::Return {
            source: register(source),
        }),
        Step::Argument { line, text, to, .. } => Ok(Instruction::Argument {
            to: register(to),
            name: name_place(place_among(names, text)),
            line,
        }),
        Step::Publish { text, source } => Ok(Instruction::Publish {
            name: name_place(place_among(names, text)),
            source: register(source),
        }),
        Step::Call {
            line,
            function,
            to,
            ref arguments,
        } => {
            let arguments = all_registers(alloc, arguments)?;
            Ok(Instruction::Call {
                function: FunctionPlace(short(function)),
                to: result_register(to),
                arguments,
                line,
            })
        }
        Step::ReturnNone => Ok(Instruction::ReturnNone),
    }
}

// The instruction of a step.
fn instruction(alloc: Global, names: &Names<'_>, step: &Step<'_>) -> Result<Instruction, LowerErr>
    ensures code { IfOk result (λ i. raw_instruction i ≡ instruction (texts names.now) (step_seen step.now)) }
    ensures refused { IfErr result (λ e. IsJust e (instruction_numbers (instruction (texts names.now) (step_seen step.now)))) }
{
    if !are_short(names, step) {
        return Err(LowerErr::TooLarge);
    }
    Ok(capped_instruction(alloc, names, step)?)
}

// The instructions of steps.
fn instructions(
    alloc: Global,
    names: &Names<'_>,
    steps: &[Step<'_>],
) -> Result<Vec<Instruction>, LowerErr>
    ensures code { IfOk result (λ body. map raw_instruction body.items ≡ map (instruction (texts names.now)) (map step_seen steps.now)) }
    ensures refused { IfErr result (λ e. IsJust e
        (flat_map instruction_numbers (map (instruction (texts names.now)) (map step_seen steps.now)))) }
{
    let mut body = Vec::with_capacity(alloc, steps.len())?;
    for step in steps {
        let next = instruction(alloc, names, step)?;
        push(&mut body, next)?;
    }
    Ok(body)
}

/// A function with instructions for its steps.
///
/// It is refused as `TooLarge` only where a number of it is too large for its field; `Memory` comes where memory runs short.
pub fn function(
    alloc: Global,
    names: &Names<'_>,
    steps: &FunctionSteps<'_>,
) -> Result<CodeFunction, LowerErr>
    ensures code { IfOk result (λ f. raw_function f ≡ raw_of (texts names.now) (function_seen steps.now)) }
    ensures refused { IfErr result (λ e. IsJust e
        (head_numbers (raw_of (texts names.now) (function_seen steps.now)) ++ body_numbers (raw_of (texts names.now) (function_seen steps.now)))) }
{
    if !are_two_short(steps.parameters, steps.registers.len()) {
        return Err(LowerErr::TooLarge);
    }
    let registers = Vec::from_slice(alloc, &steps.registers)?;
    let body = instructions(alloc, names, &steps.steps)?;
    Ok(CodeFunction {
        parameters: short(steps.parameters),
        gives: steps.gives,
        registers,
        body,
    })
}
