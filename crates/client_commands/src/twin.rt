// The command `client-twin`.
ghost use Rattle.std.specs.Prelude.{◌≡◌, true, IfOk, IfErr, string_bytes};
ghost use Rattle.command_frame.specs.Answer.{effect_of};
ghost use Rattle.command_frame.specs.Reads.{EndsDone, OnlyRead, Gives, KeepsTo, StopsReading};
ghost use Rattle.command_words.specs.Views.{client_twin_ask};
ghost use Rattle.program_commands.specs.Judging.{Finding, FoundAt, HasFinding, its_program, Tells};
ghost use Rattle.tape_commands.specs.Twin.{twinned_paths};
ghost use Rattle.client_commands.specs.Twin.{element_line, client_twin_of, client_twin_paths, IsClientTwinStop};

use client_runs::{Both, TwinErr, twin};
use command_frame::{Plan, Status, Stop, refused};
use command_words::ClientTwinWords;
use outside::Files;
use program_commands::{read_inputs, read_tape_file, read_typed};
use std::alloc::{AllocError, Global};
use tape_commands::{entry_text, twin_plan, word_text};

// The line of words that are handed over and aren't the same.
fn element_text(alloc: Global, place: usize, first: u64, second: u64) -> Result<String, AllocError>
    ensures { IfOk result (λ text. string_bytes text ≡ element_line place first second) }
{
    format!(in alloc; "error: Z1 published {place} {first} {second}\n")
}

// Why there is no twin.
fn twin_stop(alloc: Global, refusal: &TwinErr) -> Stop
    ensures { IsClientTwinStop refusal.now result }
{
    match refusal {
        TwinErr::PublicDiffers(name) => {
            refused(Status::NotAlike, entry_text(alloc, name.as_str()))
        }
        TwinErr::OpenedDiffers {
            place,
            first,
            second,
        } => refused(Status::NotAlike, word_text(alloc, *place, *first, *second)),
        TwinErr::PublishedDiffers {
            place,
            first,
            second,
        } => refused(
            Status::NotAlike,
            element_text(alloc, *place, *first, *second),
        ),
        TwinErr::Memory => Stop::Memory,
    }
}

/// Reads and checks the files, and says what is to be written: the tapes with which the client's view of the run on the second inputs is its
/// view of the run on the first ones with the tapes that were read. Inputs that are not alike to it are refused for their first difference.
#[tactic(auto, unfolding(crate::specs::Twin::client_twin_of, crate::specs::Twin::client_twin_paths), using(command_frame::proofs::Naming::names_first, command_frame::proofs::Naming::names_later))]
pub fn plan_client_twin<F: Files>(
    alloc: Global,
    files: &mut F,
    words: &ClientTwinWords,
) -> Result<Plan, Stop>
    ensures files { OnlyRead (F.state files.old) (F.state files.new) }
    ensures anyhow { IfErr result (StopsReading (F.state files.old) (F.state files.new)) }
    ensures answer { (found : Finding) → FoundAt (its_program (client_twin_ask words.now).program) (F.state files.old).contents found →
        Gives effect_of (F.state files.old) (F.state files.new) result
        (client_twin_of found (client_twin_ask words.now) (F.state files.old).contents) }
    ensures found { (F.state files.old).told ≡ true → Tells (F.state files.old) result →
        HasFinding (its_program (client_twin_ask words.now).program) (F.state files.old).contents }
    ensures names { KeepsTo (client_twin_paths (client_twin_ask words.now)) (twinned_paths (client_twin_ask words.now).to) result }
    ensures ends { EndsDone result }
{
    let program = read_typed(alloc, files, &words.program)?;
    let first = read_inputs(alloc, files, &words.input)?;
    let second = read_inputs(alloc, files, &words.second)?;
    let tapes = read_tape_file(alloc, files, &words.tape)?;
    let inputs = Both {
        first: &first,
        second: &second,
    };
    match twin(alloc, &program, inputs, &tapes, words.budget) {
        Ok(made) => Ok(twin_plan(alloc, &words.to, &made)?),
        Err(refusal) => Err(twin_stop(alloc, &refusal)),
    }
}
