// How an instruction is read.
ghost use Rattle.std.specs.Prelude.{◌≡◌, ◌<◌, map};
ghost use Rattle.bytecode.specs.Decoded.{argument_count, body_layout, instruction_layout, operands, repeated, short_layout};
ghost use Rattle.bytecode.specs.InMemory.{raw_instruction, result_register};
ghost use Rattle.bytecode.specs.Layouts.{read};
ghost use Rattle.bytecode.specs.Versions.{arguments_at, counting};
ghost use Rattle.bytecode.specs.inner.Reading.{Reads};
ghost use Rattle.bytecode.specs.inner.Tags.{made, operands_of};

use crate::fault::Stopped;
use crate::instruction::{FunctionPlace, Instruction, JumpTarget, NO_RESULT, NamePlace, Register};
use crate::lists::push;
use crate::operator::sign_of;
use crate::reader::Reader;
use crate::tag::{Tag, tag_of};
use crate::test::Test;
use crate::version::CodeVersion;
use std::alloc::Global;

/// What stands after a tag; 0 where it has no such operand.
#[derive(Clone, Copy)]
struct Operands {
    operator: u8,
    first: u16,
    truth: u8,
    second: u16,
    third: u16,
    line: u32,
    word: u64,
}

/// The instruction of a tag with these operands.
fn made(tag: Tag, o: Operands) -> Instruction
    requires operator { o.operator < 14 }
    requires truth { o.truth < 2 }
    ensures { raw_instruction result ≡ made tag o.operator o.first o.truth o.second o.third o.line o.word }
{
    match tag {
        Tag::Literal => Instruction::Literal {
            to: Register(o.first),
            word: o.word,
        },
        Tag::Move => Instruction::Move {
            to: Register(o.first),
            source: Register(o.second),
        },
        Tag::Store => Instruction::Store {
            to: Register(o.first),
            source: Register(o.second),
        },
        Tag::Binary => Instruction::Binary {
            sign: sign_of(o.operator),
            to: Register(o.first),
            left: Register(o.second),
            right: Register(o.third),
            line: o.line,
        },
        Tag::Not => Instruction::Not {
            to: Register(o.first),
            source: Register(o.second),
        },
        Tag::Cast => Instruction::Cast {
            to: Register(o.first),
            source: Register(o.second),
        },
        Tag::Classify => Instruction::Classify {
            to: Register(o.first),
            source: Register(o.second),
        },
        Tag::Fill => Instruction::Fill {
            to: Register(o.first),
            size: Register(o.second),
            value: Register(o.third),
            line: o.line,
        },
        Tag::At => Instruction::At {
            to: Register(o.first),
            array: Register(o.second),
            index: Register(o.third),
            line: o.line,
        },
        Tag::Put => Instruction::Put {
            array: Register(o.first),
            index: Register(o.second),
            value: Register(o.third),
            line: o.line,
        },
        Tag::Size => Instruction::Size {
            to: Register(o.first),
            source: Register(o.second),
        },
        Tag::Cat => Instruction::Cat {
            to: Register(o.first),
            left: Register(o.second),
            right: Register(o.third),
            line: o.line,
        },
        Tag::Sum => Instruction::Sum {
            to: Register(o.first),
            source: Register(o.second),
        },
        Tag::Bits => Instruction::Bits {
            to: Register(o.first),
            source: Register(o.second),
            line: o.line,
        },
        Tag::Lookup => Instruction::Lookup {
            to: Register(o.first),
            array: Register(o.second),
            index: Register(o.third),
            line: o.line,
        },
        Tag::Declassify => Instruction::Declassify {
            to: Register(o.first),
            source: Register(o.second),
        },
        Tag::Argument => Instruction::Argument {
            to: Register(o.first),
            name: NamePlace(o.second),
            line: o.line,
        },
        Tag::Publish => Instruction::Publish {
            name: NamePlace(o.first),
            source: Register(o.second),
        },
        Tag::Assert => Instruction::Assert {
            condition: Register(o.first),
            line: o.line,
        },
        Tag::Branch => Instruction::Branch {
            condition: Register(o.first),
            value: o.truth == 1,
            target: JumpTarget(o.second),
        },
        Tag::Jump => Instruction::Jump {
            target: JumpTarget(o.first),
        },
        Tag::Return => Instruction::Return {
            source: Register(o.first),
        },
        Tag::Call | Tag::ReturnNone => Instruction::ReturnNone,
    }
}

fn plain(reader: &mut Reader<'_>, tag: Tag) -> Result<Instruction, Stopped>
    ensures { Reads raw_instruction (read (operands_of tag) reader.old) result reader.new }
{
    let operator = reader.operator_if(tag.has_operator())?;
    let first = reader.short_if(tag.has_first())?;
    let truth = reader.truth_if(tag.has_truth())?;
    let second = reader.short_if(tag.has_second())?;
    let third = reader.short_if(tag.has_third())?;
    let line = reader.line_if(tag.has_line())?;
    let word = reader.word_if(tag.has_word())?;
    Ok(made(
        tag,
        Operands {
            operator,
            first,
            truth,
            second,
            third,
            line,
            word,
        },
    ))
}

fn registers(alloc: Global, reader: &mut Reader<'_>, count: usize) -> Result<Vec<Register>, Stopped>
    ensures { Reads (λ v. map (λ r. r.0) v.items) (read (repeated short_layout count) reader.old) result reader.new }
{
    let mut registers = Vec::new(alloc);
    for place in 0..count {
        let register = Register(reader.short()?);
        push(&mut registers, register)?;
    }
    Ok(registers)
}

/// How many arguments a call of a function has by the heads.
fn arguments_at(parameters: &[u16], function: u16) -> usize
    ensures { result ≡ arguments_at parameters.now function }
{
    match parameters.get(function as usize) {
        Some(count) => *count as usize,
        None => 0,
    }
}

/// The number of a call's arguments.
fn argument_count(
    reader: &mut Reader<'_>,
    version: CodeVersion,
    parameters: &[u16],
    function: u16,
) -> Result<usize, Stopped>
    ensures { Reads (λ n. n) (read (argument_count (counting version parameters.now) function) reader.old) result reader.new }
{
    match version {
        CodeVersion::First => Ok(arguments_at(parameters, function)),
        CodeVersion::Second => {
            let count = reader.short()?;
            Ok(count as usize)
        }
    }
}

fn result_of(to: u16) -> Option<Register>
    ensures { result_register result ≡ to }
{
    if to == NO_RESULT {
        None
    } else {
        Some(Register(to))
    }
}

fn call(
    alloc: Global,
    reader: &mut Reader<'_>,
    version: CodeVersion,
    parameters: &[u16],
) -> Result<Instruction, Stopped>
    ensures { Reads raw_instruction (read (operands (counting version parameters.now) 0x16) reader.old) result reader.new }
{
    let function = reader.short()?;
    let to = reader.short()?;
    let count = argument_count(reader, version, parameters, function)?;
    let arguments = registers(alloc, reader, count)?;
    let line = reader.line()?;
    Ok(Instruction::Call {
        function: FunctionPlace(function),
        to: result_of(to),
        arguments,
        line,
    })
}

/// The next instruction, where the functions have so many parameters.
pub(crate) fn instruction(
    alloc: Global,
    reader: &mut Reader<'_>,
    version: CodeVersion,
    parameters: &[u16],
) -> Result<Instruction, Stopped>
    ensures { Reads raw_instruction (read (instruction_layout (counting version parameters.now)) reader.old) result reader.new }
{
    let tag = tag_of(version, reader.tested(Test::Tag(version))?);
    match tag {
        Tag::Call => call(alloc, reader, version, parameters),
        _ => plain(reader, tag),
    }
}

/// The next instructions, so many.
pub(crate) fn body(
    alloc: Global,
    reader: &mut Reader<'_>,
    version: CodeVersion,
    parameters: &[u16],
    count: usize,
) -> Result<Vec<Instruction>, Stopped>
    ensures { Reads (λ v. map raw_instruction v.items)
        (read (body_layout (counting version parameters.now) count) reader.old) result reader.new }
{
    let mut instructions = Vec::new(alloc);
    for place in 0..count {
        let next = instruction(alloc, reader, version, parameters)?;
        push(&mut instructions, next)?;
    }
    Ok(instructions)
}
