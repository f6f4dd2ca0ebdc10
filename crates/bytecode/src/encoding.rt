// How code is written.
ghost use Rattle.std.specs.Prelude.{◌≡◌, ◌++◌, IfOk, OnOk, map};
ghost use Rattle.std.specs.List.{flat_map};
ghost use Rattle.bytecode.specs.InMemory.{raw_code, raw_function, raw_instruction};
ghost use Rattle.bytecode.specs.Kinds.{kind_byte};
ghost use Rattle.bytecode.specs.Written.{body_numbers, byte, bytes_of, head_numbers, instruction_numbers, name_numbers, written_code};

use crate::code::{Code, CodeFunction, MAGIC};
use crate::instruction::Instruction;
use crate::kind::{Kind, return_byte};
use crate::numbers::{Number, push_numbers};
use crate::version::VERSION;
use crate::writing::push_instruction;
use sc_text::Name;
use std::alloc::{AllocError, Global};

fn push_bytes(text: &mut Vec<u8>, bytes: &[u8]) -> Result<(), AllocError>
    ensures { OnOk result (text.new.items ≡ text.old.items ++ bytes_of (map byte bytes.now)) }
{
    for one in bytes {
        push_numbers(text, &[Number(1, *one as u64)])?;
    }
    Ok(())
}

fn push_name(text: &mut Vec<u8>, name: &Name) -> Result<(), AllocError>
    ensures { OnOk result (text.new.items ≡ text.old.items ++ bytes_of (name_numbers name.now)) }
{
    let bytes = name.as_str().as_bytes();
    push_numbers(text, &[Number(1, bytes.len() as u64)])?;
    push_bytes(text, bytes)?;
    Ok(())
}

fn push_names(text: &mut Vec<u8>, names: &[Name]) -> Result<(), AllocError>
    ensures { OnOk result (text.new.items ≡ text.old.items ++ bytes_of (flat_map name_numbers names.now)) }
{
    for name in names {
        push_name(text, name)?;
    }
    Ok(())
}

fn push_kinds(text: &mut Vec<u8>, kinds: &[Kind]) -> Result<(), AllocError>
    ensures { OnOk result (text.new.items ≡ text.old.items ++ bytes_of (map (λ kind. byte (kind_byte kind)) kinds.now)) }
{
    for kind in kinds {
        push_numbers(text, &[Number(1, kind.byte() as u64)])?;
    }
    Ok(())
}

fn push_head(text: &mut Vec<u8>, function: &CodeFunction) -> Result<(), AllocError>
    ensures { OnOk result (text.new.items ≡ text.old.items ++ bytes_of (head_numbers (raw_function function.now))) }
{
    let gives = return_byte(function.gives);
    push_numbers(
        text,
        &[
            Number(2, function.parameters as u64),
            Number(1, gives as u64),
            Number(2, function.registers.len() as u64),
        ],
    )?;
    push_kinds(text, &function.registers)?;
    push_numbers(text, &[Number(2, function.body.len() as u64)])?;
    Ok(())
}

fn push_body(text: &mut Vec<u8>, body: &[Instruction]) -> Result<(), AllocError>
    ensures { OnOk result (text.new.items ≡ text.old.items ++
        bytes_of (flat_map instruction_numbers (map raw_instruction body.now))) }
{
    for instruction in body {
        push_instruction(text, instruction)?;
    }
    Ok(())
}

fn push_heads(text: &mut Vec<u8>, functions: &[CodeFunction]) -> Result<(), AllocError>
    ensures { OnOk result (text.new.items ≡ text.old.items ++ bytes_of (flat_map head_numbers (map raw_function functions.now))) }
{
    for function in functions {
        push_head(text, function)?;
    }
    Ok(())
}

fn push_bodies(text: &mut Vec<u8>, functions: &[CodeFunction]) -> Result<(), AllocError>
    ensures { OnOk result (text.new.items ≡ text.old.items ++ bytes_of (flat_map body_numbers (map raw_function functions.now))) }
{
    for function in functions {
        push_body(text, &function.body)?;
    }
    Ok(())
}

/// Writes code.
pub fn encode(alloc: Global, code: &Code) -> Result<Vec<u8>, AllocError>
    ensures { IfOk result (λ text. text.items ≡ written_code (raw_code code.now)) }
{
    let mut text = Vec::new(alloc);
    push_numbers(
        &mut text,
        &[
            Number(1, MAGIC[0] as u64),
            Number(1, MAGIC[1] as u64),
            Number(1, MAGIC[2] as u64),
            Number(1, MAGIC[3] as u64),
            Number(1, VERSION as u64),
            Number(2, code.names.len() as u64),
        ],
    )?;
    push_names(&mut text, &code.names)?;
    push_numbers(&mut text, &[Number(2, code.functions.len() as u64)])?;
    push_heads(&mut text, &code.functions)?;
    push_bodies(&mut text, &code.functions)?;
    Ok(text)
}
