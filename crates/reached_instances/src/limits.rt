// Whether a program is small enough.
ghost use Rattle.std.specs.Prelude.{◌≡◌, Option};
ghost use Rattle.program_trees.specs.TypedPrograms.{typed_program_tree};
ghost use Rattle.reached_instances.specs.Views.{instances_seen};
ghost use Rattle.reached_instances.specs.declared.limit_err.LimitErr.{LimitErr};
ghost use Rattle.reached_instances.specs.Limits.{refusal, IsVerdict};
ghost use Rattle.reached_instances.specs.LimitAnswer.{IsAnswer, IsJust};

use crate::instance::Instance;
use crate::limit_err::LimitErr;
use crate::reaching::reached_instances;
use crate::sizes::{first_too_large, total_size};
use crate::templates::template_count;
use program_trees::TypedProgram;
use std::alloc::Global;

// The most instances of templates.
const MOST_INSTANCES: u64 = 1_024;

// The most that all functions may have together.
const LARGEST_PROGRAM: u64 = 65_535;

// Why a program that reaches these instances is refused, if it is.
fn refusal(program: &TypedProgram, instances: &[Instance]) -> Option<LimitErr>
    ensures { result ≡ refusal (typed_program_tree program.now) (instances_seen instances.now) }
{
    let count = template_count(instances, program) as u64;
    if count > MOST_INSTANCES {
        return Some(LimitErr::TooManyInstances { count });
    }
    let size = total_size(program, instances);
    if size > LARGEST_PROGRAM {
        return Some(LimitErr::ProgramTooLarge { size });
    }
    let size = first_too_large(program, instances)?;
    Some(LimitErr::FunctionTooLarge { size })
}

/// Whether a program keeps to the limits: it may reach 1,024 instances of templates, all instances that it reaches, `main` among
/// them and each by itself, may have 65,535 nodes and parameters, and each function 4,095.
///
/// It is refused for the first of these that it breaks, in this order; of the functions that are too large, the first in the
/// order of the reached instances counts. `Memory` comes where memory runs short.
pub fn check_limits(alloc: Global, program: &TypedProgram) -> Result<(), LimitErr>
    // What is answered is the verdict on the program.
    ensures answer { IsAnswer (typed_program_tree program.now) result }
    // A program has no other, unless memory ran out.
    ensures only { (refused : Option LimitErr) → IsVerdict (typed_program_tree program.now) refused → IsJust result refused }
{
    let instances = reached_instances(alloc, program)?;
    match refusal(program, instances.as_slice()) {
        None => Ok(()),
        Some(error) => Err(error),
    }
}
