// The command `client-map`.
ghost use Rattle.std.specs.Prelude.{◌≡◌, ◌∷◌, [], true, IfOk, IfErr};
ghost use Rattle.command_frame.specs.Answer.{effect_of};
ghost use Rattle.command_frame.specs.Reads.{EndsDone, OnlyRead, Gives, KeepsTo, PlanNames, StopsReading};
ghost use Rattle.command_words.specs.Views.{client_map_ask};
ghost use Rattle.view_reader.specs.Published.{published_bytes};
ghost use Rattle.program_commands.specs.Judging.{Finding, FoundAt, HasFinding, its_program, Tells};
ghost use Rattle.client_commands.specs.Map.{publications, made_effect, client_map_of, client_map_paths, client_mapped_paths};

use client_runs::{MappedRun, map_run};
use command_frame::{Plan, Status, Stop};
use command_words::ClientMapWords;
use outside::Files;
use program_commands::{read_inputs, read_tape_file, read_typed};
use sc_text::Event;
use std::alloc::{AllocError, Global};
use tape_commands::{add_planned, opened_lines, public_file};
use value_file::Inputs;

// The lines of what a run handed over.
fn published_lines(alloc: Global, events: &[Event]) -> Result<Vec<u8>, AllocError>
    ensures { IfOk result (λ file. file.items ≡ published_bytes (publications events.now)) }
{
    let mut text = String::new(alloc);
    for event in events {
        if let Event::Hand(_, _, _) = event {
            write!(text, "{event}")?;
        }
    }
    Ok(text.into_bytes())
}

// What is to be written of a run: the tapes that the client's view is made of, the public part of the inputs, what was opened, and what was
// handed over.
#[tactic(auto, unfolding(crate::specs::Map::client_mapped_paths))]
fn map_plan(
    alloc: Global,
    words: &ClientMapWords,
    inputs: &Inputs,
    run: &MappedRun,
) -> Result<Plan, AllocError>
    ensures effect { IfOk result (λ plan. effect_of plan ≡ made_effect (client_map_ask words.now) inputs.now run.now) }
    ensures names { IfOk result (PlanNames (client_mapped_paths (client_map_ask words.now))) }
    ensures ends { EndsDone result }
{
    let mut writes = Vec::new(alloc);
    add_planned(
        &mut writes,
        &words.sim,
        tape_file::write(alloc, &run.tapes)?,
    )?;
    add_planned(&mut writes, &words.public, public_file(alloc, inputs)?)?;
    add_planned(
        &mut writes,
        &words.opened,
        opened_lines(alloc, &run.report.events)?,
    )?;
    add_planned(
        &mut writes,
        &words.published,
        published_lines(alloc, &run.report.events)?,
    )?;
    Ok(Plan {
        writes,
        text: Vec::new(alloc),
        status: Status::Done,
    })
}

/// Reads and checks the files, runs the program in the clear, and says what is to be written: the tapes that the client's view of the run is
/// made of, the public part of the inputs, what was opened, and what was handed over.
#[tactic(auto, unfolding(crate::specs::Map::client_map_of, crate::specs::Map::client_map_paths, crate::specs::Map::client_mapped_paths), using(command_frame::proofs::Naming::names_first, command_frame::proofs::Naming::names_later))]
pub fn plan_client_map<F: Files>(
    alloc: Global,
    files: &mut F,
    words: &ClientMapWords,
) -> Result<Plan, Stop>
    ensures files { OnlyRead (F.state files.old) (F.state files.new) }
    ensures anyhow { IfErr result (StopsReading (F.state files.old) (F.state files.new)) }
    ensures answer { (found : Finding) → FoundAt (its_program (client_map_ask words.now).program) (F.state files.old).contents found →
        Gives effect_of (F.state files.old) (F.state files.new) result
        (client_map_of found (client_map_ask words.now) (F.state files.old).contents) }
    ensures found { (F.state files.old).told ≡ true → Tells (F.state files.old) result →
        HasFinding (its_program (client_map_ask words.now).program) (F.state files.old).contents }
    ensures names { KeepsTo (client_map_paths (client_map_ask words.now)) (client_mapped_paths (client_map_ask words.now)) result }
    ensures ends { EndsDone result }
{
    let program = read_typed(alloc, files, &words.program)?;
    let inputs = read_inputs(alloc, files, &words.input)?;
    let tapes = read_tape_file(alloc, files, &words.tape)?;
    let made = map_run(alloc, &program, &inputs, &tapes, words.budget)?;
    Ok(map_plan(alloc, words, &inputs, &made)?)
}
