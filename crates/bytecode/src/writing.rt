// How an instruction is written: its tag, then its operands.
ghost use Rattle.std.specs.Prelude.{◌≡◌, ◌++◌, ◌∷◌, [], OnOk, map, length};
ghost use Rattle.bytecode.specs.InMemory.{raw_instruction, result_register, truth_byte};
ghost use Rattle.bytecode.specs.Written.{byte, bytes_of, instruction_numbers, short, source_line, word};
ghost use Rattle.bytecode.specs.declared.instruction.Register.{Register};

use crate::instruction::{Instruction, NO_RESULT, Register};
use crate::numbers::{Number, push_numbers};
use crate::operator::byte_of;
use std::alloc::AllocError;

fn push_single(text: &mut Vec<u8>, tag: u8, operand: u16) -> Result<(), AllocError>
    ensures { OnOk result (text.new.items ≡ text.old.items ++ bytes_of (byte tag ∷ short operand ∷ [])) }
{
    push_numbers(text, &[Number(1, tag as u64), Number(2, operand as u64)])
}

fn push_pair(text: &mut Vec<u8>, tag: u8, first: u16, second: u16) -> Result<(), AllocError>
    ensures { OnOk result (text.new.items ≡ text.old.items ++ bytes_of (byte tag ∷ short first ∷ short second ∷ [])) }
{
    push_numbers(
        text,
        &[
            Number(1, tag as u64),
            Number(2, first as u64),
            Number(2, second as u64),
        ],
    )
}

fn push_pair_with_line(
    text: &mut Vec<u8>,
    tag: u8,
    first: u16,
    second: u16,
    line: u32,
) -> Result<(), AllocError>
    ensures { OnOk result (text.new.items ≡ text.old.items ++
        bytes_of (byte tag ∷ short first ∷ short second ∷ source_line line ∷ [])) }
{
    push_numbers(
        text,
        &[
            Number(1, tag as u64),
            Number(2, first as u64),
            Number(2, second as u64),
            Number(4, line as u64),
        ],
    )
}

fn push_triple(
    text: &mut Vec<u8>,
    tag: u8,
    first: u16,
    second: u16,
    third: u16,
    line: u32,
) -> Result<(), AllocError>
    ensures { OnOk result (text.new.items ≡ text.old.items ++
        bytes_of (byte tag ∷ short first ∷ short second ∷ short third ∷ source_line line ∷ [])) }
{
    push_numbers(
        text,
        &[
            Number(1, tag as u64),
            Number(2, first as u64),
            Number(2, second as u64),
            Number(2, third as u64),
            Number(4, line as u64),
        ],
    )
}

fn push_binary(
    text: &mut Vec<u8>,
    operator: u8,
    to: u16,
    left: u16,
    right: u16,
    line: u32,
) -> Result<(), AllocError>
    ensures { OnOk result (text.new.items ≡ text.old.items ++
        bytes_of (byte 4 ∷ byte operator ∷ short to ∷ short left ∷ short right ∷ source_line line ∷ [])) }
{
    push_numbers(
        text,
        &[
            Number(1, 4),
            Number(1, operator as u64),
            Number(2, to as u64),
            Number(2, left as u64),
            Number(2, right as u64),
            Number(4, line as u64),
        ],
    )
}

fn push_registers(text: &mut Vec<u8>, registers: &[Register]) -> Result<(), AllocError>
    ensures { OnOk result (text.new.items ≡ text.old.items ++ bytes_of (map (λ r. short r.0) registers.now)) }
{
    for register in registers {
        push_numbers(text, &[Number(2, register.0 as u64)])?;
    }
    Ok(())
}

fn result_register(to: Option<Register>) -> u16
    ensures { result ≡ result_register to }
{
    match to {
        Some(register) => register.0,
        None => NO_RESULT,
    }
}

fn push_call(
    text: &mut Vec<u8>,
    function: u16,
    to: u16,
    arguments: &[Register],
    line: u32,
) -> Result<(), AllocError>
    ensures { OnOk result (text.new.items ≡ text.old.items ++ bytes_of (byte 0x16 ∷ short function ∷ short to ∷ short (length arguments.now)
        ∷ (map short (map (λ r. r.0) arguments.now) ++ source_line line ∷ []))) }
{
    push_pair(text, 0x16, function, to)?;
    push_numbers(text, &[Number(2, arguments.len() as u64)])?;
    push_registers(text, arguments)?;
    push_numbers(text, &[Number(4, line as u64)])?;
    Ok(())
}

/// Writes an instruction after a text.
pub(crate) fn push_instruction(
    text: &mut Vec<u8>,
    instruction: &Instruction,
) -> Result<(), AllocError>
    ensures { OnOk result (text.new.items ≡ text.old.items ++ bytes_of (instruction_numbers (raw_instruction instruction.now))) }
{
    match *instruction {
        Instruction::Literal { to, word } => push_numbers(
            text,
            &[Number(1, 0x01), Number(2, to.0 as u64), Number(8, word)],
        ),
        Instruction::Move { to, source } => push_pair(text, 0x02, to.0, source.0),
        Instruction::Store { to, source } => push_pair(text, 0x03, to.0, source.0),
        Instruction::Binary {
            sign,
            to,
            left,
            right,
            line,
        } => push_binary(text, byte_of(sign), to.0, left.0, right.0, line),
        Instruction::Not { to, source } => push_pair(text, 0x05, to.0, source.0),
        Instruction::Cast { to, source } => push_pair(text, 0x06, to.0, source.0),
        Instruction::Classify { to, source } => push_pair(text, 0x07, to.0, source.0),
        Instruction::Fill {
            to,
            size,
            value,
            line,
        } => push_triple(text, 0x08, to.0, size.0, value.0, line),
        Instruction::At {
            to,
            array,
            index,
            line,
        } => push_triple(text, 0x09, to.0, array.0, index.0, line),
        Instruction::Put {
            array,
            index,
            value,
            line,
        } => push_triple(text, 0x0a, array.0, index.0, value.0, line),
        Instruction::Size { to, source } => push_pair(text, 0x0b, to.0, source.0),
        Instruction::Cat {
            to,
            left,
            right,
            line,
        } => push_triple(text, 0x0c, to.0, left.0, right.0, line),
        Instruction::Sum { to, source } => push_pair(text, 0x0d, to.0, source.0),
        Instruction::Bits { to, source, line } => push_pair_with_line(
            text, 0x0e, to.0, source.0, line,
        ),
        Instruction::Lookup {
            to,
            array,
            index,
            line,
        } => push_triple(text, 0x19, to.0, array.0, index.0, line),
        Instruction::Declassify { to, source } => push_pair(text, 0x0f, to.0, source.0),
        Instruction::Argument { to, name, line } => push_pair_with_line(
            text, 0x10, to.0, name.0, line,
        ),
        Instruction::Publish { name, source } => push_pair(text, 0x11, name.0, source.0),
        Instruction::Assert { condition, line } => push_numbers(
            text,
            &[
                Number(1, 0x12),
                Number(2, condition.0 as u64),
                Number(4, line as u64),
            ],
        ),
        Instruction::Branch {
            condition,
            value,
            target,
        } => push_numbers(
            text,
            &[
                Number(1, 0x13),
                Number(2, condition.0 as u64),
                Number(1, value as u64),
                Number(2, target.0 as u64),
            ],
        ),
        Instruction::Jump { target } => push_single(text, 0x14, target.0),
        Instruction::Call {
            function,
            to,
            ref arguments,
            line,
        } => push_call(text, function.0, result_register(to), arguments, line),
        Instruction::Return { source } => push_single(text, 0x17, source.0),
        Instruction::ReturnNone => push_numbers(text, &[Number(1, 0x18)]),
    }
}
