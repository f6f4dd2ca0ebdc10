// Programs, by their texts and by paths.
ghost use Rattle.std.specs.Prelude.{◌≡◌, ◌∷◌, [], true, IfOk, IfErr};
ghost use Rattle.program_trees.specs.Programs.{program_tree};
ghost use Rattle.domain_types.specs.ProgramTypes as types;
ghost use Rattle.program_trees.specs.TypedPrograms.{typed_program_tree};
ghost use Rattle.program_trees.specs.Sound.{IsSound};
ghost use Rattle.well_typed.specs.Sources.{IsWellWritten};
ghost use Rattle.program_run.specs.WrittenSources.{IsPlacedProgram};
ghost use Rattle.program_run.specs.Accepted.{IsAccepted};
ghost use Rattle.front_end.specs.Judgement.{Judged, IsJudged};
ghost use Rattle.command_frame.specs.Reads.{OnlyRead, Gives, StopNames, StopsReading};
ghost use Rattle.command_frame.specs.Stops.{IsRefusalFor};
ghost use Rattle.program_commands.specs.Judging.{Finding, FoundAt, HasFinding, its_program, Tells};
ghost use Rattle.program_commands.specs.OfText.{Decides, HasDecided, IsFoundOf, IsFoundSo, IsJudgedSo, IsOwnStop, program_in};
ghost use Rattle.program_commands.specs.Programs.{accepted, bad_program, program_at, too_large};

use crate::readers::refusal_of;
use command_frame::{Status, Stop, read_file};
use front_end::{ProgramErr, ProgramFault, read_program};
use outside::Files;
use program_trees::{Program, TypedProgram};
use program_typing::checked_tree;
use reached_instances::{LimitErr, check_limits};
use std::alloc::Global;

// Why a program is refused.
#[tactic(auto, unfolding(crate::specs::Programs::bad_program))]
fn program_stop(alloc: Global, fault: ProgramFault) -> Stop
    ensures { IsRefusalFor (bad_program fault) result }
{
    refusal_of(alloc, Status::Program, &ProgramErr::Refused(fault).into())
}

// Why an accepted program is too large.
#[tactic(auto, unfolding(crate::specs::Programs::too_large))]
fn size_stop(alloc: Global, error: LimitErr) -> Stop
    ensures refusal { IsRefusalFor (too_large error) result }
    ensures memory { error ≡ LimitErr.Memory → result ≡ Stop.Memory }
{
    match error {
        LimitErr::Memory => Stop::Memory,
        _ => refusal_of(alloc, Status::Program, &error.into()),
    }
}

// The program that a text is, if it is accepted.
fn tree_of_text(alloc: Global, text: &[u8]) -> Result<Program, Stop>
    ensures answer { (judged : Judged) → IsJudged text.now judged → Decides program_tree result (accepted judged) }
    ensures judged { HasDecided result → IsJudgedSo text.now }
    ensures own { IfErr result IsOwnStop }
    ensures typed { IfOk result (λ program. types.IsAccepted (program_tree program)) }
    ensures written { IfOk result (λ program. IsWellWritten (program_tree program)) }
    ensures placed { IfOk result (λ program. IsPlacedProgram (program_tree program)) }
{
    match read_program(alloc, text) {
        Ok(program) => Ok(program),
        Err(ProgramErr::Refused(fault)) => Err(program_stop(alloc, fault)),
        Err(ProgramErr::Memory) => Err(Stop::Memory),
    }
}

/// The typed tree of the program that a text is, if it is accepted and small enough.
#[tactic(auto, unfolding(crate::specs::OfText::program_in))]
pub fn typed_of_text(alloc: Global, text: &[u8]) -> Result<TypedProgram, Stop>
    ensures answer { (found : Finding) → IsFoundOf text.now found → Decides typed_program_tree result (program_in found) }
    ensures found { HasDecided result → IsFoundSo text.now }
    ensures own { IfErr result IsOwnStop }
    ensures sound { IfOk result (λ t. IsSound (typed_program_tree t)) }
    ensures accepted { IfOk result (λ t. IsAccepted (typed_program_tree t)) }
{
    let program = tree_of_text(alloc, text)?;
    let typed = checked_tree(alloc, &program)?;
    match check_limits(alloc, &typed) {
        Ok(()) => Ok(typed),
        Err(error) => Err(size_stop(alloc, error)),
    }
}

/// The typed tree of the program at this path, if it is accepted and small enough.
#[tactic(auto, unfolding(crate::specs::Programs::program_at))]
pub fn read_typed<F: Files>(alloc: Global, files: &mut F, path: &str) -> Result<TypedProgram, Stop>
    ensures files { OnlyRead (F.state files.old) (F.state files.new) }
    ensures anyhow { IfErr result (StopsReading (F.state files.old) (F.state files.new)) }
    ensures answer { (found : Finding) → FoundAt (its_program path.now) (F.state files.old).contents found →
        Gives typed_program_tree (F.state files.old) (F.state files.new) result
        (program_at found (F.state files.old).contents path.now) }
    ensures found { (F.state files.old).told ≡ true → Tells (F.state files.old) result →
        HasFinding (its_program path.now) (F.state files.old).contents }
    ensures sound { IfOk result (λ t. IsSound (typed_program_tree t)) }
    ensures accepted { IfOk result (λ t. IsAccepted (typed_program_tree t)) }
    ensures names { IfErr result (StopNames (path.now ∷ [])) }
{
    let bytes = read_file(alloc, files, path)?;
    typed_of_text(alloc, &bytes)
}
