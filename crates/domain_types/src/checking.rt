// The checker over a whole program.
ghost use Rattle.std.specs.Prelude.{◌≡◌, ◌↔◌, IfOk, map, vec_items};
ghost use Rattle.program_trees.specs.Programs.{ProgramTree, program_tree};
ghost use Rattle.domain_types.specs.declared.fault.TypeFault.{TypeFault};
ghost use Rattle.domain_types.specs.Instances.{instance_seen};
ghost use Rattle.domain_types.specs.ProgramTypes.{IsAccepted, IsRefused};
ghost use Rattle.domain_types.specs.Typing.{IsTypedProgram};
ghost use Rattle.domain_types.specs.Answer.{AreTheChecked, IsTold, IsVerdict};

use crate::fault::{TypeFault, TypeProblem};
use crate::instance::Instance;
use crate::items::{has_main, items};
use crate::least_fault::note_if;
use crate::protections::Protections;
use crate::type_err::TypeErr;
use crate::visiting::{called_heads, visit_all};
use declarations::collect;
use program_trees::Program;
use std::alloc::{AllocError, Global};

// The instances that are checked, each once, and the fault that is told, if there is one.
fn survey(
    alloc: Global,
    program: &Program,
) -> Result<(Vec<Instance>, Option<TypeFault>), AllocError>
    ensures checked { IfOk result (λ found. AreTheChecked (program_tree program.now) (map instance_seen (vec_items found.0))) }
    ensures told { IfOk result (λ found. IsTold found.1 (program_tree program.now)) }
{
    let declarations = collect(alloc, &program.items)?;
    let protections = Protections::collect(alloc, &program.items)?;
    let mut least_fault = None;
    items(alloc, &mut least_fault, &declarations, &program.items)?;
    let missing = !has_main(&declarations.functions);
    note_if(&mut least_fault, missing, program.end, TypeProblem::NoMain);
    let visits = visit_all(alloc, &mut least_fault, &declarations)?;
    called_heads(
        &mut least_fault,
        &declarations,
        &protections,
        &visits.called,
    );
    Ok((visits.list.into_instances(), least_fault))
}

/// Checks a program against the type rules: the instances of its functions that are checked, each once, or the fault at the least
/// place, and there of the least number.
pub fn check(alloc: Global, program: &Program) -> Result<Vec<Instance>, TypeErr>
    ensures { IsVerdict result (program_tree program.now) }
{
    let (instances, least_fault) = survey(alloc, program)?;
    match least_fault {
        None => Ok(instances),
        Some(fault) => Err(TypeErr::Refused(fault)),
    }
}

/// What `check` answers is determined: no program has two faults that are told, and none is typed that has one.
pub fn one_verdict()
    ensures fault { (p : ProgramTree) (f g : TypeFault) → IsRefused p f → IsRefused p g → f ≡ g }
    ensures either { (p : ProgramTree) (f : TypeFault) → IsRefused p f → IsTypedProgram p → ⊥ }
    ensures faultless { (p : ProgramTree) → IsAccepted p ↔ IsTypedProgram p }
{}
