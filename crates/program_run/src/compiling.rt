// The code of a program.
ghost use Rattle.std.specs.Prelude.{IfOk};
ghost use Rattle.program_trees.specs.TypedPrograms.{typed_program_tree};
ghost use Rattle.program_run.specs.Accepted.{IsAccepted};
ghost use Rattle.program_run.specs.Codes.{IsCodeOf};

use lowering::{LowerErr, lower};
use program_trees::TypedProgram;
use reached_instances::reached_instances;
use std::alloc::{AllocError, Global};
use verified_code::{Verified, verify};

/// The code of a program, verified: a function for each instance that `main` reaches, in their order.
///
/// An error comes where memory runs short.
pub fn compile_program(alloc: Global, program: &TypedProgram) -> Result<Verified, AllocError>
    requires { IsAccepted (typed_program_tree program.now) }
    ensures { IfOk result (IsCodeOf (typed_program_tree program.now)) }
{
    let instances = reached_instances(alloc, program)?;
    let code = match lower(alloc, program, &instances) {
        Ok(code) => code,
        Err(LowerErr::Memory) => return Err(AllocError),
        Err(LowerErr::TooLarge) => unreachable!(),
    };
    match verify(code) {
        Ok(verified) => Ok(verified),
        Err(_) => unreachable!(),
    }
}
