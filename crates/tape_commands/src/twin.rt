// The command `twin`.
ghost use Rattle.std.specs.Prelude.{◌≡◌, true, IfOk, IfErr, string_bytes};
ghost use Rattle.command_frame.specs.Answer.{effect_of};
ghost use Rattle.command_frame.specs.Reads.{EndsDone, OnlyRead, Gives, KeepsTo, PlanNames, StopsReading};
ghost use Rattle.command_words.specs.Views.{twin_ask};
ghost use Rattle.program_commands.specs.Judging.{Finding, FoundAt, HasFinding, its_program, Tells};
ghost use Rattle.tape_commands.specs.Twin.{entry_line, word_line, written_effect, twin_of, twin_paths, twinned_paths, IsTwinStop};

use command_frame::{Content, Plan, PlannedWrite, Status, Stop, refused};
use command_words::TwinWords;
use outside::Files;
use program_commands::{read_inputs, read_tape_file, read_typed};
use std::alloc::{AllocError, Global};
use tape_file::Tapes;
use tape_twin::{Both, TwinErr, twin};

/// The line of an input that isn't the same in what everybody knows.
#[tactic(auto, unfolding(crate::specs::Twin::entry_line))]
pub fn entry_text(alloc: Global, name: &str) -> Result<String, AllocError>
    ensures { IfOk result (λ text. string_bytes text ≡ entry_line name.now) }
{
    format!(in alloc; "error: Z1 public {name}\n")
}

/// The line of opened words that aren't the same.
pub fn word_text(alloc: Global, place: usize, first: u64, second: u64) -> Result<String, AllocError>
    ensures { IfOk result (λ text. string_bytes text ≡ word_line place first second) }
{
    format!(in alloc; "error: Z1 opened {place} {first} {second}\n")
}

// Why there is no twin.
fn twin_stop(alloc: Global, refusal: &TwinErr) -> Stop
    ensures { IsTwinStop refusal.now result }
{
    match refusal {
        TwinErr::PublicDiffers(name) => {
            refused(Status::NotAlike, entry_text(alloc, name.as_str()))
        }
        TwinErr::OpenedDiffers {
            place,
            first,
            second,
        } => refused(Status::NotAlike, word_text(alloc, *place, *first, *second)),
        TwinErr::Memory => Stop::Memory,
    }
}

/// What is to be written of a twin.
#[tactic(auto, unfolding(crate::specs::Twin::twinned_paths))]
pub fn twin_plan(alloc: Global, to: &String, tapes: &Tapes) -> Result<Plan, AllocError>
    ensures effect { IfOk result (λ plan. effect_of plan ≡ written_effect (string_bytes to.now) tapes.now) }
    ensures names { IfOk result (PlanNames (twinned_paths (string_bytes to.now))) }
    ensures ends { EndsDone result }
{
    let mut writes = Vec::new(alloc);
    writes.push(PlannedWrite {
        path: to.clone()?,
        content: Content::Bytes(tape_file::write(alloc, tapes)?),
    })?;
    Ok(Plan {
        writes,
        text: Vec::new(alloc),
        status: Status::Done,
    })
}

/// Reads and checks the files, and says what is to be written: the tapes with which the miner's view of the run on the second inputs is its
/// view of the run on the first ones with the tapes that were read. Inputs that are not alike are refused for their first difference.
#[tactic(auto, unfolding(crate::specs::Twin::twin_of, crate::specs::Twin::twin_paths, crate::specs::Twin::twinned_paths), using(command_frame::proofs::Naming::names_first, command_frame::proofs::Naming::names_later))]
pub fn plan_twin<F: Files>(alloc: Global, files: &mut F, words: &TwinWords) -> Result<Plan, Stop>
    ensures files { OnlyRead (F.state files.old) (F.state files.new) }
    ensures anyhow { IfErr result (StopsReading (F.state files.old) (F.state files.new)) }
    ensures answer { (found : Finding) → FoundAt (its_program (twin_ask words.now).program) (F.state files.old).contents found →
        Gives effect_of (F.state files.old) (F.state files.new) result
        (twin_of found (twin_ask words.now) (F.state files.old).contents) }
    ensures found { (F.state files.old).told ≡ true → Tells (F.state files.old) result →
        HasFinding (its_program (twin_ask words.now).program) (F.state files.old).contents }
    ensures names { KeepsTo (twin_paths (twin_ask words.now)) (twinned_paths (twin_ask words.now).to) result }
    ensures ends { EndsDone result }
{
    let program = read_typed(alloc, files, &words.program)?;
    let first = read_inputs(alloc, files, &words.input)?;
    let second = read_inputs(alloc, files, &words.second)?;
    let tapes = read_tape_file(alloc, files, &words.tape)?;
    let inputs = Both {
        first: &first,
        second: &second,
    };
    match twin(alloc, words.miner, &program, inputs, &tapes, words.budget) {
        Ok(made) => Ok(twin_plan(alloc, &words.to, &made)?),
        Err(refusal) => Err(twin_stop(alloc, &refusal)),
    }
}
