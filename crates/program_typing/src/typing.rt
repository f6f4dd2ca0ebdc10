// The checker, and then the tree.
ghost use Rattle.std.specs.Prelude.{◌≡◌, Some, IfOk};
ghost use Rattle.program_trees.specs.Programs.{program_tree};
ghost use Rattle.domain_types.specs.ProgramTypes.{IsAccepted};
ghost use Rattle.program_trees.specs.TypedPrograms.{typed_program_tree};
ghost use Rattle.program_trees.specs.Sound.{IsSound};
ghost use Rattle.name_resolution.specs.Functions.{typed_of};
ghost use Rattle.program_typing.specs.Answer.{IsTypedAnswer};

use domain_types::{TypeErr, check};
use name_resolution::{ResolveErr, resolve};
use program_trees::{Program, TypedProgram};
use std::alloc::{AllocError, Global};

/// The typed tree of a program that was checked: the functions that `main` reaches, in the order in which they are first called,
/// with each slot and each call one that is there. There always is one, so it is missing only where memory runs short.
pub fn checked_tree(alloc: Global, program: &Program) -> Result<TypedProgram, AllocError>
    requires { IsAccepted (program_tree program.now) }
    ensures tree { IfOk result (λ t. typed_of (program_tree program.now) ≡ Some (typed_program_tree t)) }
    ensures sound { IfOk result (λ t. IsSound (typed_program_tree t)) }
{
    match resolve(alloc, program) {
        Ok(typed) => Ok(typed),
        Err(ResolveErr::Memory) => Err(AllocError),
        Err(ResolveErr::Unresolved) => unreachable!(),
    }
}

/// The typed tree of a program that the checker accepts.
///
/// `Refused` comes with the program's first fault exactly where `check` refuses it, and `Memory` where memory runs short. Each
/// program that is accepted has a typed tree, so none is left without one for another reason.
pub fn type_program(alloc: Global, program: &Program) -> Result<TypedProgram, TypeErr>
    ensures { IsTypedAnswer result (program_tree program.now) }
{
    let _ = check(alloc, program)?;
    let typed = checked_tree(alloc, program)?;
    Ok(typed)
}
