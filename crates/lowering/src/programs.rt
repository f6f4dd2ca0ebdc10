// The code of programs.
ghost use Rattle.std.specs.Prelude.{◌≡◌, IfErr, IfOk, map};
ghost use Rattle.std.specs.List.{flat_map};
ghost use Rattle.bytecode.specs.InMemory.{raw_code, raw_function};
ghost use Rattle.bytecode.specs.Written.{body_numbers, head_numbers};
ghost use Rattle.program_trees.specs.TypedPrograms.{typed_program_tree};
ghost use Rattle.reached_instances.specs.Instances.{instance_seen};
ghost use Rattle.code_model.specs.Programs.{code_of, instance_code, numbers_in};
ghost use Rattle.code_model.specs.Instructions.{raw_code_of, raw_function as raw_of};
ghost use Rattle.lowering.specs.inner.Naming.{AreSame, texts};
ghost use Rattle.lowering.specs.Narrow.{IsJustOfSome, IsJustRefusal};
ghost use Rattle.lowering.specs.inner.Views.{function_seen};

use crate::errors::LowerErr;
use crate::functions::{FunctionSteps, function_steps, nothing_steps};
use crate::instructions::function;
use crate::lists::push;
use crate::naming::{Names, names_of};
use bytecode::{Code, CodeFunction};
use lowered_expressions::Around;
use program_trees::TypedProgram;
use reached_instances::{Instance, ReachedInstances, Setting};
use std::alloc::{AllocError, Global};

// The code of an instance; where its function isn't there, it is empty.
fn instance_steps<'p>(
    alloc: Global,
    program: &'p TypedProgram,
    instances: &ReachedInstances,
    instance: &Instance,
) -> Result<FunctionSteps<'p>, AllocError>
    ensures { IfOk result (λ f. function_seen f ≡
        instance_code (typed_program_tree program.now).functions (numbers_in instances.now) (instance_seen instance.now)) }
{
    let Some(function) = program.functions.get(instance.function) else {
        return Ok(nothing_steps(alloc));
    };
    let around = Around {
        alloc,
        here: Setting {
            functions: &program.functions,
            slots: &function.slots,
            binding: &instance.binding,
        },
        instances,
    };
    function_steps(&around, function)
}

// The code of each instance.
fn all_steps<'p>(
    alloc: Global,
    program: &'p TypedProgram,
    instances: &ReachedInstances,
) -> Result<Vec<FunctionSteps<'p>>, AllocError>
    ensures { IfOk result (λ all. map function_seen all.items ≡ code_of (typed_program_tree program.now) instances.now) }
{
    let mut all = Vec::new(alloc);
    for instance in instances.as_slice() {
        let steps = instance_steps(alloc, program, instances, instance)?;
        push(&mut all, steps)?;
    }
    Ok(all)
}

// Functions with instructions for their steps.
fn all_functions(
    alloc: Global,
    names: &Names<'_>,
    all: &[FunctionSteps<'_>],
) -> Result<Vec<CodeFunction>, LowerErr>
    ensures code { IfOk result (λ functions. map raw_function functions.items ≡ map (raw_of (texts names.now)) (map function_seen all.now)) }
    ensures refused { IfErr result (λ e. IsJustOfSome e (map (raw_of (texts names.now)) (map function_seen all.now))) }
{
    let mut functions = Vec::with_capacity(alloc, all.len())?;
    for steps in all {
        let next = function(alloc, names, steps)?;
        push(&mut functions, next)?;
    }
    Ok(functions)
}

/// The code of a program with its reached instances: a function for each, in their order, and each name once, in the order of first
/// use. It is exactly what the definitions of a program's code say.
///
/// `TooLarge` comes only where a number of the code is too large for its field, so that the code can't be written; `Memory` where
/// memory runs short. The time grows with the size of the functions; but the steps of a loop are gone over once for each loop around
/// them, to settle its breaks and continues.
pub fn lower(
    alloc: Global,
    program: &TypedProgram,
    instances: &ReachedInstances,
) -> Result<Code, LowerErr>
    ensures code { IfOk result (λ code. raw_code code ≡ raw_code_of (code_of (typed_program_tree program.now) instances.now)) }
    ensures refused { IfErr result (λ e. IsJustRefusal e (raw_code_of (code_of (typed_program_tree program.now) instances.now))) }
{
    let all = all_steps(alloc, program, instances)?;
    let names = names_of(alloc, &all)?;
    let functions = all_functions(alloc, &names, &all)?;
    Ok(Code {
        names: names.list,
        functions,
    })
}
