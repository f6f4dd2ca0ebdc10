// The step that an instruction is.
ghost use Rattle.std.specs.Prelude.{◌≡◌};
ghost use Rattle.bytecode.specs.InMemory.{operator_byte, raw_instruction, result_register};
ghost use Rattle.verified_code.specs.Fitting.{kind_at};
ghost use Rattle.verified_code.specs.InMemory.{place_of, step_in};
ghost use Rattle.verified_code.specs.Settled.{binary_step, name_at, result_at, settle};

use crate::kinds::kind_at;
use crate::operators::operator_on;
use crate::step::Step;
use bytecode::{Instruction, Kind, NO_RESULT, NamePlace, Register};
use program_trees::{Cast, Operands, OperatorSign};
use sc_text::Name;

fn name_at<'c>(names: &'c [Name], name: NamePlace) -> &'c str
    ensures { result.now ≡ name_at names.now name.0 }
{
    match names.get(name.0 as usize) {
        Some(name) => name.as_str(),
        None => "",
    }
}

fn result_in(to: Option<Register>) -> Option<Register>
    ensures { place_of result ≡ result_at (result_register to) }
{
    match to {
        Some(register) if register.0 != NO_RESULT => Some(register),
        _ => None,
    }
}

fn binary<'c>(
    kinds: &[Kind],
    sign: OperatorSign,
    to: Register,
    left: Register,
    right: Register,
    line: u32,
) -> Step<'c>
    ensures { step_in result ≡ binary_step (kind_at kinds.now left.0) (kind_at kinds.now right.0) (operator_byte sign) to.0 left.0 right.0 line }
{
    let first = kind_at(kinds, left);
    let second = kind_at(kinds, right);
    Step::Binary {
        line,
        operator: operator_on(first.element, sign),
        operands: Operands::of(first.array, second.array),
        to,
        left,
        right,
    }
}

/// The step that an instruction is, where the names of the code and the kinds of the registers are these.
pub(crate) fn settle<'c>(
    names: &'c [Name],
    kinds: &[Kind],
    instruction: &'c Instruction,
) -> Step<'c>
    ensures { step_in result ≡ settle names.now kinds.now (raw_instruction instruction.now) }
{
    match instruction {
        Instruction::Literal { to, word } => Step::Literal {
            to: *to,
            element: kind_at(kinds, *to).element,
            word: *word,
        },
        Instruction::Move { to, source } => Step::Move {
            to: *to,
            source: *source,
        },
        Instruction::Store { to, source } => Step::Store {
            to: *to,
            source: *source,
        },
        Instruction::Binary {
            sign,
            to,
            left,
            right,
            line,
        } => binary(kinds, *sign, *to, *left, *right, *line),
        Instruction::Not { to, source } => Step::Not {
            to: *to,
            source: *source,
        },
        Instruction::Cast { to, source } => Step::Cast {
            cast: Cast::between(kind_at(kinds, *source).element, kind_at(kinds, *to).element),
            to: *to,
            source: *source,
        },
        Instruction::Classify { to, source } => Step::Classify {
            to: *to,
            source: *source,
        },
        Instruction::Fill {
            to,
            size,
            value,
            line,
        } => Step::Fill {
            line: *line,
            to: *to,
            size: *size,
            value: *value,
        },
        Instruction::At {
            to,
            array,
            index,
            line,
        } => Step::At {
            line: *line,
            to: *to,
            array: *array,
            index: *index,
        },
        Instruction::Put {
            array,
            index,
            value,
            line,
        } => Step::Put {
            line: *line,
            array: *array,
            index: *index,
            value: *value,
        },
        Instruction::Size { to, source } => Step::Size {
            to: *to,
            source: *source,
        },
        Instruction::Cat {
            to,
            left,
            right,
            line,
        } => Step::Cat {
            line: *line,
            to: *to,
            left: *left,
            right: *right,
        },
        Instruction::Sum { to, source } => Step::Sum {
            to: *to,
            source: *source,
        },
        Instruction::Bits { to, source, line } => Step::Bits {
            line: *line,
            to: *to,
            source: *source,
        },
        Instruction::Lookup {
            to,
            array,
            index,
            line,
        } => Step::Lookup {
            line: *line,
            to: *to,
            array: *array,
            index: *index,
        },
        Instruction::Declassify { to, source } => Step::Declassify {
            to: *to,
            source: *source,
        },
        Instruction::Argument { to, name, line } => Step::Argument {
            line: *line,
            kind: kind_at(kinds, *to),
            text: name_at(names, *name),
            to: *to,
        },
        Instruction::Publish { name, source } => Step::Publish {
            text: name_at(names, *name),
            source: *source,
        },
        Instruction::Assert { condition, line } => Step::Assert {
            line: *line,
            condition: *condition,
        },
        Instruction::Branch {
            condition,
            value,
            target,
        } => Step::Branch {
            condition: *condition,
            value: *value,
            target: *target,
        },
        Instruction::Jump { target } => Step::Jump { target: *target },
        Instruction::Call {
            function,
            to,
            arguments,
            line,
        } => Step::Call {
            line: *line,
            function: *function,
            to: result_in(*to),
            arguments,
        },
        Instruction::Return { source } => Step::Return { source: *source },
        Instruction::ReturnNone => Step::ReturnNone,
    }
}
