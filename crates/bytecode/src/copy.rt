// Copies in memory of their own.
ghost use Rattle.std.specs.Prelude.{◌≡◌, IfOk, map};
ghost use Rattle.bytecode.specs.InMemory.{raw_code, raw_function, raw_instruction};

use crate::code::{Code, CodeFunction};
use crate::instruction::Instruction;
use sc_text::Name;
use std::alloc::{AllocError, Global};

fn copy_names(alloc: Global, names: &[Name]) -> Result<Vec<Name>, AllocError>
    ensures { IfOk result (λ copies. copies.items ≡ names.now) }
{
    let mut copies = Vec::with_capacity(alloc, names.len())?;
    for name in names {
        copies.push(name.copy(alloc)?)?;
    }
    Ok(copies)
}

impl Instruction {
    /// The same instruction in memory of its own.
    pub fn copy(&self, alloc: Global) -> Result<Instruction, AllocError>
        ensures { IfOk result (λ copy. raw_instruction copy ≡ raw_instruction self.now) }
    {
        match *self {
            Instruction::Literal { to, word } => Ok(Instruction::Literal { to, word }),
            Instruction::Move { to, source } => Ok(Instruction::Move { to, source }),
            Instruction::Store { to, source } => Ok(Instruction::Store { to, source }),
            Instruction::Binary {
                sign,
                to,
                left,
                right,
                line,
            } => Ok(Instruction::Binary {
                sign,
                to,
                left,
                right,
                line,
            }),
            Instruction::Not { to, source } => Ok(Instruction::Not { to, source }),
            Instruction::Cast { to, source } => Ok(Instruction::Cast { to, source }),
            Instruction::Classify { to, source } => Ok(Instruction::Classify { to, source }),
            Instruction::Fill {
                to,
                size,
                value,
                line,
            } => Ok(Instruction::Fill {
                to,
                size,
                value,
                line,
            }),
            Instruction::At {
                to,
                array,
                index,
                line,
            } => Ok(Instruction::At {
                to,
                array,
                index,
                line,
            }),
            Instruction::Put {
                array,
                index,
                value,
                line,
            } => Ok(Instruction::Put {
                array,
                index,
                value,
                line,
            }),
            Instruction::Size { to, source } => Ok(Instruction::Size { to, source }),
            Instruction::Cat {
                to,
                left,
                right,
                line,
            } => Ok(Instruction::Cat {
                to,
                left,
                right,
                line,
            }),
            Instruction::Sum { to, source } => Ok(Instruction::Sum { to, source }),
            Instruction::Bits { to, source, line } => Ok(Instruction::Bits { to, source, line }),
            Instruction::Lookup {
                to,
                array,
                index,
                line,
            } => Ok(Instruction::Lookup {
                to,
                array,
                index,
                line,
            }),
            Instruction::Declassify { to, source } => Ok(Instruction::Declassify { to, source }),
            Instruction::Argument { to, name, line } => Ok(Instruction::Argument {
                to,
                name,
                line,
            }),
            Instruction::Publish { name, source } => Ok(Instruction::Publish { name, source }),
            Instruction::Assert { condition, line } => Ok(Instruction::Assert { condition, line }),
            Instruction::Branch {
                condition,
                value,
                target,
            } => Ok(Instruction::Branch {
                condition,
                value,
                target,
            }),
            Instruction::Jump { target } => Ok(Instruction::Jump { target }),
            Instruction::Call {
                function,
                to,
                ref arguments,
                line,
            } => {
                let arguments = Vec::from_slice(alloc, arguments)?;
                Ok(Instruction::Call {
                    function,
                    to,
                    arguments,
                    line,
                })
            }
            Instruction::Return { source } => Ok(Instruction::Return { source }),
            Instruction::ReturnNone => Ok(Instruction::ReturnNone),
        }
    }
}

fn copy_body(alloc: Global, body: &[Instruction]) -> Result<Vec<Instruction>, AllocError>
    ensures { IfOk result (λ copies. map raw_instruction copies.items ≡ map raw_instruction body.now) }
{
    let mut copies = Vec::with_capacity(alloc, body.len())?;
    for instruction in body {
        copies.push(instruction.copy(alloc)?)?;
    }
    Ok(copies)
}

impl CodeFunction {
    /// The same function in memory of its own.
    pub fn copy(&self, alloc: Global) -> Result<CodeFunction, AllocError>
        ensures { IfOk result (λ copy. raw_function copy ≡ raw_function self.now) }
    {
        let registers = Vec::from_slice(alloc, &self.registers)?;
        let body = copy_body(alloc, &self.body)?;
        Ok(CodeFunction {
            parameters: self.parameters,
            gives: self.gives,
            registers,
            body,
        })
    }
}

fn copy_functions(
    alloc: Global,
    functions: &[CodeFunction],
) -> Result<Vec<CodeFunction>, AllocError>
    ensures { IfOk result (λ copies. map raw_function copies.items ≡ map raw_function functions.now) }
{
    let mut copies = Vec::with_capacity(alloc, functions.len())?;
    for function in functions {
        copies.push(function.copy(alloc)?)?;
    }
    Ok(copies)
}

impl Code {
    /// The same code in memory of its own.
    pub fn copy(&self, alloc: Global) -> Result<Code, AllocError>
        ensures { IfOk result (λ copy. raw_code copy ≡ raw_code self.now) }
    {
        let names = copy_names(alloc, &self.names)?;
        let functions = copy_functions(alloc, &self.functions)?;
        Ok(Code { names, functions })
    }
}
