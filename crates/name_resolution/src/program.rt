// Whole programs.
ghost use Rattle.std.specs.Prelude.{IfOk};
ghost use Rattle.program_trees.specs.Programs.{program_tree};
ghost use Rattle.name_resolution.specs.Answer.{Answers};
ghost use Rattle.name_resolution.specs.Functions.{typed_of};
ghost use Rattle.program_trees.specs.TypedPrograms.{typed_program_tree};
ghost use Rattle.program_trees.specs.Sound.{IsSound};

use crate::functions::typed_functions;
use crate::order::reached;
use crate::resolve_err::ResolveErr;
use declarations::collect;
use program_trees::{Program, TypedProgram};
use std::alloc::Global;

/// The typed tree of a program, whether or not the checker accepts it: the functions that `main` reaches, in the order in which
/// they are first called. Each slot that the tree names is one of its function, and each call is one of a function of the tree
/// with as many arguments as that has parameters.
///
/// `Unresolved` comes only where the program has no typed tree, and `Memory` where memory runs short. `type_program` of the crate
/// `program_typing` asks the checker first, and then never finds a program unresolved.
pub fn resolve(alloc: Global, program: &Program) -> Result<TypedProgram, ResolveErr>
    ensures exact { Answers typed_program_tree result (typed_of (program_tree program.now)) }
    ensures sound { IfOk result (λ t. IsSound (typed_program_tree t)) }
{
    let declarations = collect(alloc, &program.items)?;
    let known = reached(alloc, &declarations)?.into_declarations(declarations);
    let functions = typed_functions(alloc, &known)?;
    Ok(TypedProgram { functions })
}
