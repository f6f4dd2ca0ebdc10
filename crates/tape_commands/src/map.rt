// The command `map`.
ghost use Rattle.std.specs.Prelude.{◌≡◌, ◌∷◌, ◌++◌, [], true, IfOk, IfErr, OnOk, string_bytes};
ghost use Rattle.command_frame.specs.Answer.{effect_of, writes_of};
ghost use Rattle.command_frame.specs.Reads.{EndsDone, OnlyRead, Gives, KeepsTo, PlanNames, StopsReading};
ghost use Rattle.command_words.specs.Views.{map_ask};
ghost use Rattle.tape_twin.specs.Views.{openings};
ghost use Rattle.value_file.specs.Public.{part_bytes, part_of};
ghost use Rattle.view_reader.specs.Opened.{opened_bytes};
ghost use Rattle.program_commands.specs.Judging.{Finding, FoundAt, HasFinding, its_program, Tells};
ghost use Rattle.tape_commands.specs.Map.{made_effect, map_of, map_paths, mapped_paths};

use command_frame::{Content, Plan, PlannedWrite, Status, Stop};
use command_words::MapWords;
use outside::Files;
use program_commands::{read_inputs, read_tape_file, read_typed};
use sc_text::Event;
use std::alloc::{AllocError, Global};
use tape_twin::{MappedRun, map_run};
use value_file::{Inputs, public_part, write_public};

/// The lines of what a run opened.
pub fn opened_lines(alloc: Global, events: &[Event]) -> Result<Vec<u8>, AllocError>
    ensures { IfOk result (λ file. file.items ≡ opened_bytes (openings events.now)) }
{
    let mut text = String::new(alloc);
    for event in events {
        if let Event::Open(elements) = event {
            writeln!(text, "open{elements}")?;
        }
    }
    Ok(text.into_bytes())
}

/// Adds a file that is to be written at a path.
pub fn add_planned(
    writes: &mut Vec<PlannedWrite>,
    path: &String,
    bytes: Vec<u8>,
) -> Result<(), AllocError>
    ensures { OnOk result (writes_of writes.new.items ≡ writes_of writes.old.items ++ record { path = string_bytes path.now; bytes = bytes.items } ∷ []) }
{
    let path = path.clone()?;
    let content = Content::Bytes(bytes);
    writes.push(PlannedWrite { path, content })?;
    Ok(())
}

/// The file of the public part of inputs.
pub fn public_file(alloc: Global, inputs: &Inputs) -> Result<Vec<u8>, AllocError>
    ensures { IfOk result (λ file. file.items ≡ part_bytes (part_of inputs.now)) }
{
    let part = public_part(alloc, inputs)?;
    write_public(alloc, &part)
}

// What is to be written of a run: the tapes that the miner's view is made of, the public part of the inputs, and what was opened.
#[tactic(auto, unfolding(crate::specs::Map::mapped_paths))]
fn map_plan(
    alloc: Global,
    words: &MapWords,
    inputs: &Inputs,
    run: &MappedRun,
) -> Result<Plan, AllocError>
    ensures effect { IfOk result (λ plan. effect_of plan ≡ made_effect (map_ask words.now) inputs.now run.now) }
    ensures names { IfOk result (PlanNames (mapped_paths (map_ask words.now))) }
    ensures ends { EndsDone result }
{
    let mut writes = Vec::new(alloc);
    add_planned(
        &mut writes,
        &words.sim,
        tape_file::write(alloc, &run.tapes)?,
    )?;
    add_planned(&mut writes, &words.public, public_file(alloc, inputs)?)?;
    add_planned(
        &mut writes,
        &words.opened,
        opened_lines(alloc, &run.report.events)?,
    )?;
    Ok(Plan {
        writes,
        text: Vec::new(alloc),
        status: Status::Done,
    })
}

/// Reads and checks the files, runs the program in the clear, and says what is to be written: the tapes that the miner's view of the run is
/// made of, the public part of the inputs, and what was opened.
#[tactic(auto, unfolding(crate::specs::Map::map_of, crate::specs::Map::map_paths, crate::specs::Map::mapped_paths), using(command_frame::proofs::Naming::names_first, command_frame::proofs::Naming::names_later))]
pub fn plan_map<F: Files>(alloc: Global, files: &mut F, words: &MapWords) -> Result<Plan, Stop>
    ensures files { OnlyRead (F.state files.old) (F.state files.new) }
    ensures anyhow { IfErr result (StopsReading (F.state files.old) (F.state files.new)) }
    ensures answer { (found : Finding) → FoundAt (its_program (map_ask words.now).program) (F.state files.old).contents found →
        Gives effect_of (F.state files.old) (F.state files.new) result
        (map_of found (map_ask words.now) (F.state files.old).contents) }
    ensures found { (F.state files.old).told ≡ true → Tells (F.state files.old) result →
        HasFinding (its_program (map_ask words.now).program) (F.state files.old).contents }
    ensures names { KeepsTo (map_paths (map_ask words.now)) (mapped_paths (map_ask words.now)) result }
    ensures ends { EndsDone result }
{
    let program = read_typed(alloc, files, &words.program)?;
    let inputs = read_inputs(alloc, files, &words.input)?;
    let tapes = read_tape_file(alloc, files, &words.tape)?;
    let made = map_run(alloc, words.miner, &program, &inputs, &tapes, words.budget)?;
    Ok(map_plan(alloc, words, &inputs, &made)?)
}
