// What an instruction asks of its place.
ghost use Rattle.std.specs.Prelude.{◌≡◌, ◌==◌, ◌<◌, ◌&&◌, ◌||◌, Some, length, map, slice_get};
ghost use Rattle.std.specs.List.{list_all};
ghost use Rattle.bytecode.specs.InMemory.{raw_code, raw_function, raw_instruction, result_register};
ghost use Rattle.verified_code.specs.Fitting.{arguments_fit, call_fits, gives_fits, goes_on, is_there, kind_at, names_there, operands_fit, target_fits};
ghost use Rattle.verified_code.specs.inner.Places.{here_in};

use crate::kinds::{
    are_alike, bits_fit, cast_fits, cat_fits, classify_fits, declassify_fits, element_fits,
    fill_fits, gives_fits, gives_none, is_condition, kind_at, literal_fits, lookup_fits, not_fits,
    same_kind, size_fits, sum_fits,
};
use crate::operators::binary_fits;
use bytecode::{
    Code, CodeFunction, FunctionPlace, Instruction, Kind, NO_RESULT, NamePlace, Register,
};

/// Where an instruction stands.
#[derive(Clone, Copy)]
pub(crate) struct Here<'c> {
    pub(crate) code: &'c Code,
    pub(crate) own: &'c CodeFunction,
    pub(crate) place: usize,
}

fn is_there(kinds: &[Kind], register: Register) -> bool
    ensures { result ≡ is_there kinds.now register.0 }
{
    (register.0 as usize) < kinds.len()
}

fn are_there(kinds: &[Kind], registers: &[Register]) -> bool
    ensures { result ≡ list_all (λ r. is_there kinds.now r.0) registers.now }
{
    registers.iter().all(|register| is_there(kinds, *register))
}

fn result_there(kinds: &[Kind], to: Option<Register>) -> bool
    ensures { result ≡ (result_register to == 65535 || is_there kinds.now (result_register to)) }
{
    match to {
        Some(register) => register.0 == NO_RESULT || is_there(kinds, register),
        None => true,
    }
}

fn two_there(kinds: &[Kind], first: Register, second: Register) -> bool
    ensures { result ≡ (is_there kinds.now first.0 && is_there kinds.now second.0) }
{
    is_there(kinds, first) && is_there(kinds, second)
}

fn three_there(kinds: &[Kind], first: Register, second: Register, third: Register) -> bool
    ensures { result ≡ (is_there kinds.now first.0 && is_there kinds.now second.0 && is_there kinds.now third.0) }
{
    is_there(kinds, first) && is_there(kinds, second) && is_there(kinds, third)
}

fn name_there(code: &Code, name: NamePlace) -> bool
    ensures { result ≡ is_there (raw_code code.now).names name.0 }
{
    (name.0 as usize) < code.names.len()
}

fn function_there(code: &Code, function: FunctionPlace) -> bool
    ensures { result ≡ is_there (raw_code code.now).functions function.0 }
{
    (function.0 as usize) < code.functions.len()
}

/// The arguments of a call are of these kinds, one by one.
fn arguments_fit(kinds: &[Kind], arguments: &[Register], wanted: &[Kind]) -> bool
    requires { length arguments.now ≡ length wanted.now }
    ensures { result ≡ arguments_fit kinds.now (map (λ r. r.0) arguments.now) wanted.now }
{
    for place in 0..arguments.len() {
        if !same_kind(kind_at(kinds, arguments[place]), wanted[place]) {
            return false;
        }
    }
    true
}

fn result_fits(kinds: &[Kind], gives: Option<Kind>, to: Option<Register>) -> bool
    ensures { result ≡ (result_register to == 65535 || gives_fits gives (kind_at kinds.now (result_register to))) }
{
    match to {
        Some(register) => register.0 == NO_RESULT || gives_fits(kinds, gives, register),
        None => true,
    }
}

fn call_of_fits(
    kinds: &[Kind],
    called: &CodeFunction,
    to: Option<Register>,
    arguments: &[Register],
) -> bool
    ensures { result ≡ call_fits kinds.now (Some (raw_function called.now)) (result_register to) (map (λ r. r.0) arguments.now) }
{
    let count = called.parameters as usize;
    count <= called.registers.len()
        && arguments.len() == count
        && arguments_fit(kinds, arguments, &called.registers[..count])
        && result_fits(kinds, called.gives, to)
}

fn call_fits(
    code: &Code,
    kinds: &[Kind],
    function: FunctionPlace,
    to: Option<Register>,
    arguments: &[Register],
) -> bool
    ensures { result ≡ call_fits kinds.now (slice_get (raw_code code.now).functions function.0) (result_register to) (map (λ r. r.0) arguments.now) }
{
    match code.functions.get(function.0 as usize) {
        Some(called) => call_of_fits(kinds, called, to, arguments),
        None => false,
    }
}

/// What the instruction names is there.
#[tactic(auto, using(crate::proofs::Faults::list_all_map))]
pub(crate) fn names_there(here: Here<'_>, instruction: &Instruction) -> bool
    ensures { result ≡ names_there (here_in here.entry) (raw_instruction instruction.now) }
{
    let kinds = &here.own.registers;
    match instruction {
        Instruction::Literal { to, word: _ } => is_there(kinds, *to),
        Instruction::Move { to, source }
        | Instruction::Store { to, source }
        | Instruction::Not { to, source }
        | Instruction::Cast { to, source }
        | Instruction::Classify { to, source }
        | Instruction::Size { to, source }
        | Instruction::Sum { to, source }
        | Instruction::Bits {
            to,
            source,
            line: _,
        }
        | Instruction::Declassify { to, source } => two_there(kinds, *to, *source),
        Instruction::Binary {
            sign: _,
            to,
            left,
            right,
            line: _,
        }
        | Instruction::Cat {
            to,
            left,
            right,
            line: _,
        } => three_there(kinds, *to, *left, *right),
        Instruction::Fill {
            to,
            size,
            value,
            line: _,
        } => three_there(kinds, *to, *size, *value),
        Instruction::At {
            to,
            array,
            index,
            line: _,
        }
        | Instruction::Lookup {
            to,
            array,
            index,
            line: _,
        } => three_there(kinds, *to, *array, *index),
        Instruction::Put {
            array,
            index,
            value,
            line: _,
        } => three_there(kinds, *array, *index, *value),
        Instruction::Argument { to, name, line: _ } => is_there(kinds, *to)
            && name_there(here.code, *name),
        Instruction::Publish { name, source } => name_there(here.code, *name)
            && is_there(kinds, *source),
        Instruction::Assert { condition, line: _ } => is_there(kinds, *condition),
        Instruction::Branch {
            condition,
            value: _,
            target: _,
        } => is_there(kinds, *condition),
        Instruction::Call {
            function,
            to,
            arguments,
            line: _,
        } => {
            function_there(here.code, *function)
                && result_there(kinds, *to)
                && are_there(kinds, arguments)
        }
        Instruction::Return { source } => is_there(kinds, *source),
        Instruction::Jump { target: _ } | Instruction::ReturnNone => true,
    }
}

/// The operands are of the kinds that the instruction wants.
pub(crate) fn operands_fit(here: Here<'_>, instruction: &Instruction) -> bool
    ensures { result ≡ operands_fit (here_in here.entry) (raw_instruction instruction.now) }
{
    let kinds = &here.own.registers;
    match instruction {
        Instruction::Literal { to, word } => literal_fits(kinds, *to, *word),
        Instruction::Move { to, source } | Instruction::Store { to, source } => {
            are_alike(kinds, *to, *source)
        }
        Instruction::Binary {
            sign,
            to,
            left,
            right,
            line: _,
        } => binary_fits(kinds, *sign, *to, *left, *right),
        Instruction::Not { to, source } => not_fits(kinds, *to, *source),
        Instruction::Cast { to, source } => cast_fits(kinds, *to, *source),
        Instruction::Classify { to, source } => classify_fits(kinds, *to, *source),
        Instruction::Fill {
            to,
            size,
            value,
            line: _,
        } => fill_fits(kinds, *to, *size, *value),
        Instruction::At {
            to,
            array,
            index,
            line: _,
        } => element_fits(kinds, *array, *index, *to),
        Instruction::Put {
            array,
            index,
            value,
            line: _,
        } => element_fits(kinds, *array, *index, *value),
        Instruction::Size { to, source } => size_fits(kinds, *to, *source),
        Instruction::Cat {
            to,
            left,
            right,
            line: _,
        } => cat_fits(kinds, *to, *left, *right),
        Instruction::Sum { to, source } => sum_fits(kinds, *to, *source),
        Instruction::Bits {
            to,
            source,
            line: _,
        } => bits_fit(kinds, *to, *source),
        Instruction::Lookup {
            to,
            array,
            index,
            line: _,
        } => lookup_fits(kinds, *to, *array, *index),
        Instruction::Declassify { to, source } => declassify_fits(kinds, *to, *source),
        Instruction::Assert { condition, line: _ } => is_condition(kinds, *condition),
        Instruction::Branch {
            condition,
            value: _,
            target: _,
        } => is_condition(kinds, *condition),
        Instruction::Call {
            function,
            to,
            arguments,
            line: _,
        } => call_fits(here.code, kinds, *function, *to, arguments),
        Instruction::Return { source } => gives_fits(kinds, here.own.gives, *source),
        Instruction::ReturnNone => gives_none(here.own.gives),
        Instruction::Argument {
            to: _,
            name: _,
            line: _,
        }
        | Instruction::Publish { name: _, source: _ }
        | Instruction::Jump { target: _ } => true,
    }
}

/// The instruction's target may be led to.
pub(crate) fn target_fits(here: Here<'_>, instruction: &Instruction) -> bool
    ensures { result ≡ target_fits (here_in here.entry) (raw_instruction instruction.now) }
{
    let count = here.own.body.len();
    match instruction {
        Instruction::Branch {
            condition: _,
            value: _,
            target,
        } => (target.0 as usize) < count,
        Instruction::Jump { target } => here.place < target.0 as usize
            && (target.0 as usize) < count,
        _ => true,
    }
}

/// The instruction returns, or another one stands after it.
pub(crate) fn goes_on(here: Here<'_>, instruction: &Instruction) -> bool
    requires { here.place < length (raw_function here.own.now).body }
    ensures { result ≡ goes_on (here_in here.entry) (raw_instruction instruction.now) }
{
    matches!(
        instruction,
        Instruction::Return { source: _ } | Instruction::ReturnNone
    ) || here.place + 1 < here.own.body.len()
}
