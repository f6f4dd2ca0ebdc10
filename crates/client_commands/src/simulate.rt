// The command `client-simulate`.
ghost use Rattle.std.specs.Prelude.{◌≡◌, Some, true, IfOk, IfErr, string_bytes};
ghost use Rattle.command_frame.specs.Answer.{effect_of};
ghost use Rattle.command_frame.specs.Reads.{EndsDone, OnlyRead, Gives, KeepsTo, PlanNames, StopsReading};
ghost use Rattle.command_words.specs.Views.{client_simulate_ask};
ghost use Rattle.program_commands.specs.Judging.{Finding, FoundAt, HasFinding, its_program, Tells};
ghost use Rattle.client_commands.specs.Simulate.{
  published_short_line,
  client_simulate_effect,
  client_simulate_of,
  client_simulate_paths,
  client_simulated_paths,
  IsClientSimulateStop,
};

use client_simulator::{SimulateErr, SimulatedRun, simulate};
use client_text::ClientView;
use command_frame::{Content, Plan, PlannedWrite, Status, Stop, refused};
use command_words::ClientSimulateWords;
use outside::Files;
use program_commands::{
    read_opened_file, read_public_file, read_published_file, read_tape_file, read_typed,
};
use std::alloc::{AllocError, Global};
use tape_commands::short_text;

// The line of words that don't suffice for what is handed over.
fn published_short_text(alloc: Global, have: u64) -> Result<String, AllocError>
    ensures { IfOk result (λ text. string_bytes text ≡ published_short_line have) }
{
    format!(in alloc; "error: V3 have {have}\n")
}

// Why there is no view.
fn simulate_stop(alloc: Global, refusal: SimulateErr) -> Stop
    ensures { IsClientSimulateStop refusal result }
{
    match refusal {
        SimulateErr::OpenedShort { have } => {
            refused(Status::OpenedShort, short_text(alloc, have))
        }
        SimulateErr::PublishedShort { have } => {
            refused(Status::OpenedShort, published_short_text(alloc, have))
        }
        SimulateErr::Memory => Stop::Memory,
    }
}

// What is to be written of a view.
#[tactic(auto, unfolding(crate::specs::Simulate::client_simulated_paths))]
fn simulate_plan(
    alloc: Global,
    words: &ClientSimulateWords,
    view: &ClientView,
) -> Result<Plan, AllocError>
    ensures effect { IfOk result (λ plan. effect_of plan ≡ client_simulate_effect (client_simulate_ask words.now) (Some view.now)) }
    ensures names { IfOk result (PlanNames (client_simulated_paths (client_simulate_ask words.now).view)) }
    ensures ends { EndsDone result }
{
    let mut writes = Vec::new(alloc);
    writes.push(PlannedWrite {
        path: words.view.clone()?,
        content: Content::Bytes(client_text::write(alloc, view)?),
    })?;
    Ok(Plan {
        writes,
        text: Vec::new(alloc),
        status: Status::Done,
    })
}

/// Reads and checks the files, and says what is to be written: the client's view that the simulator makes of what everybody may know of the
/// inputs, the opened words, those that are handed over and the tapes. Words that don't suffice are refused, the first that are wanting.
#[tactic(auto, unfolding(crate::specs::Simulate::client_simulate_of, crate::specs::Simulate::client_simulate_paths, crate::specs::Simulate::client_simulated_paths), using(command_frame::proofs::Naming::names_first, command_frame::proofs::Naming::names_later))]
pub fn plan_client_simulate<F: Files>(
    alloc: Global,
    files: &mut F,
    words: &ClientSimulateWords,
) -> Result<Plan, Stop>
    ensures files { OnlyRead (F.state files.old) (F.state files.new) }
    ensures anyhow { IfErr result (StopsReading (F.state files.old) (F.state files.new)) }
    ensures answer { (found : Finding) → FoundAt (its_program (client_simulate_ask words.now).program) (F.state files.old).contents found →
        Gives effect_of (F.state files.old) (F.state files.new) result
        (client_simulate_of found (client_simulate_ask words.now) (F.state files.old).contents) }
    ensures found { (F.state files.old).told ≡ true → Tells (F.state files.old) result →
        HasFinding (its_program (client_simulate_ask words.now).program) (F.state files.old).contents }
    ensures names { KeepsTo (client_simulate_paths (client_simulate_ask words.now))
        (client_simulated_paths (client_simulate_ask words.now).view) result }
    ensures ends { EndsDone result }
{
    let program = read_typed(alloc, files, &words.program)?;
    let part = read_public_file(alloc, files, &words.public)?;
    let opened = read_opened_file(alloc, files, &words.opened)?;
    let published = read_published_file(alloc, files, &words.published)?;
    let tapes = read_tape_file(alloc, files, &words.sim)?;
    let run = SimulatedRun {
        program: &program,
        part: &part,
        opened: &opened,
        published: &published,
        tapes: &tapes,
        budget: words.budget,
    };
    match simulate(alloc, &run) {
        Ok(view) => Ok(simulate_plan(alloc, words, &view)?),
        Err(refusal) => Err(simulate_stop(alloc, refusal)),
    }
}
