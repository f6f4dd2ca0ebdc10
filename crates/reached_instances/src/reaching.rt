// The list of the reached instances.
ghost use Rattle.std.specs.Prelude.{◌≡◌, All, IfOk};
ghost use Rattle.program_trees.specs.TypedPrograms.{typed_program_tree};
ghost use Rattle.reached_instances.specs.Calls.{main_of};
ghost use Rattle.reached_instances.specs.Reached.{IsReachedList, IsBound};
ghost use Rattle.reached_instances.specs.Views.{instances_seen};

use crate::expressions::call;
use crate::instance::Instance;
use crate::list::ReachedInstances;
use crate::statements::called_by;
use program_trees::TypedProgram;
use std::alloc::{AllocError, Global};

// `main`, if it is there.
fn main_of(alloc: Global, program: &TypedProgram) -> Result<Vec<Instance>, AllocError>
    ensures { IfOk result (λ found. instances_seen found.items ≡ main_of (typed_program_tree program.now)) }
{
    let mut found = Vec::new(alloc);
    let _ = call(alloc, &mut found, &program.functions, 0, &[])?;
    Ok(found)
}

/// The instances that `main` reaches, in the order in which they are first called: `main` is the first, and the others follow as
/// calls name them where the instances are read from the first one on, arguments before the call. Each stands there once; its
/// function is one of the program, and each of the function's domain variables is bound.
///
/// An error comes where memory runs short.
pub fn reached_instances(
    alloc: Global,
    program: &TypedProgram,
) -> Result<ReachedInstances, AllocError>
    ensures list { IfOk result (λ list. IsReachedList (typed_program_tree program.now) list) }
    ensures bound { IfOk result (λ list. All (IsBound (typed_program_tree program.now)) list) }
{
    let found = main_of(alloc, program)?;
    let mut reached = ReachedInstances::new(alloc);
    reached.list_all(found)?;
    let mut next = 0;
    while let Some(instance) = reached.as_slice().get(next) {
        let found = called_by(alloc, program, instance)?;
        reached.list_all(found)?;
        next += 1;
    }
    Ok(reached)
}
