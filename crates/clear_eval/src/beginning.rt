// The body of a function that is about to run.
ghost use Rattle.std.specs.Prelude.{IfOk, map, length};
ghost use Rattle.program_trees.specs.TypedPrograms.{typed_function_tree};
ghost use Rattle.value_steps.specs.Views.{value_seen};
ghost use Rattle.clear_eval.specs.inner.Beginning.{IsBegun};
ghost use Rattle.clear_eval.specs.inner.Standing.{HasRoomFor, AreSoundAmong};

use crate::entering::enter;
use crate::place::StatementContext;
use program_trees::{TypedFunction, TypedStatement};
use reached_instances::{BoundDomain, Setting, given_domain};
use std::alloc::{AllocError, Global};
use value_steps::Value;

/// A function that is called, by its number among the functions of a program: what its domain variables are bound to, and for how many
/// calls inside one another its body has room.
#[derive(Clone, Copy)]
pub struct Callee<'f, 'b> {
    pub functions: &'f [TypedFunction],
    pub depth: usize,
    pub number: usize,
    pub binding: &'b [BoundDomain],
}

/// The body of a function that is about to run: where it stands, what is in the function's slots, and its statements.
#[derive(Drop)]
pub struct Begun<'a> {
    pub at: StatementContext<'a>,
    pub frame: Vec<Value>,
    pub body: &'a Vec<TypedStatement>,
}

/// Begins a function that is called, with its arguments in its first slots.
pub fn begin<'a>(
    alloc: Global,
    callee: &Callee<'a, 'a>,
    arguments: Vec<Value>,
) -> Result<Begun<'a>, AllocError>
    requires program { AreSoundAmong (map typed_function_tree callee.now.functions.now) }
    requires fitting { HasRoomFor callee.now.functions.now callee.now.number (length arguments.items) }
    ensures { IfOk result (IsBegun callee.now (map value_seen arguments.items)) }
{
    let Callee {
        functions,
        depth,
        number,
        binding,
    } = *callee;
    let function = &functions[number];
    let frame = enter(alloc, binding, &function.slots, arguments)?;
    Ok(Begun {
        at: StatementContext {
            here: Setting {
                functions,
                slots: &function.slots,
                binding,
            },
            private_result: given_domain(binding, function.given).is_private(),
            depth,
        },
        frame,
        body: &function.body,
    })
}
