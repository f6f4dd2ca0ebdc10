// The command `simulate`.
ghost use Rattle.std.specs.Prelude.{◌≡◌, Some, true, IfOk, IfErr, string_bytes};
ghost use Rattle.command_frame.specs.Answer.{effect_of};
ghost use Rattle.command_frame.specs.Reads.{EndsDone, OnlyRead, Gives, KeepsTo, PlanNames, StopsReading};
ghost use Rattle.command_words.specs.Views.{simulate_ask};
ghost use Rattle.program_commands.specs.Judging.{Finding, FoundAt, HasFinding, its_program, Tells};
ghost use Rattle.tape_commands.specs.Simulate.{short_line, simulate_effect, simulate_of, simulate_paths, simulated_paths, IsSimulateStop};

use command_frame::{Content, Plan, PlannedWrite, Status, Stop, refused};
use command_words::SimulateWords;
use counted_net::DeliveryErr;
use outside::Files;
use program_commands::{
    delivery_stop, read_delivery, read_opened_file, read_public_file, read_tape_file, read_typed,
};
use std::alloc::{AllocError, Global};
use view_simulator::{SimulateErr, SimulatedRun, simulate};
use view_text::View;

/// The line of opened words that don't suffice.
pub fn short_text(alloc: Global, have: u64) -> Result<String, AllocError>
    ensures { IfOk result (λ text. string_bytes text ≡ short_line have) }
{
    format!(in alloc; "error: V2 have {have}\n")
}

// Why there is no view.
fn simulate_stop(alloc: Global, refusal: SimulateErr) -> Stop
    ensures { IsSimulateStop refusal result }
{
    match refusal {
        SimulateErr::OpenedShort { have } => {
            refused(Status::OpenedShort, short_text(alloc, have))
        }
        SimulateErr::EmptyLink { entry, link, sent } => {
            delivery_stop(alloc, DeliveryErr::EmptyLink { entry, link, sent })
        }
        SimulateErr::Stalled { miner, link } => {
            delivery_stop(alloc, DeliveryErr::Stalled { miner, link })
        }
        SimulateErr::Memory => Stop::Memory,
    }
}

// What is to be written of a view.
#[tactic(auto, unfolding(crate::specs::Simulate::simulated_paths))]
fn simulate_plan(alloc: Global, words: &SimulateWords, view: View) -> Result<Plan, AllocError>
    ensures effect { IfOk result (λ plan. effect_of plan ≡ simulate_effect (simulate_ask words.now) (Some view)) }
    ensures names { IfOk result (PlanNames (simulated_paths (simulate_ask words.now).view)) }
    ensures ends { EndsDone result }
{
    let mut writes = Vec::new(alloc);
    writes.push(PlannedWrite {
        path: words.view.clone()?,
        content: Content::View(view),
    })?;
    Ok(Plan {
        writes,
        text: Vec::new(alloc),
        status: Status::Done,
    })
}

/// Reads and checks the files, and says what is to be written: the view that the simulator makes for the miner of what everybody may know
/// of the inputs, the opened words, the tapes and the order of deliveries. Words that don't suffice are refused, else an order that can't be
/// followed to the end.
#[tactic(auto, unfolding(crate::specs::Simulate::simulate_of, crate::specs::Simulate::simulate_paths, crate::specs::Simulate::simulated_paths), using(command_frame::proofs::Naming::names_first, command_frame::proofs::Naming::names_later))]
pub fn plan_simulate<F: Files>(
    alloc: Global,
    files: &mut F,
    words: &SimulateWords,
) -> Result<Plan, Stop>
    ensures files { OnlyRead (F.state files.old) (F.state files.new) }
    ensures anyhow { IfErr result (StopsReading (F.state files.old) (F.state files.new)) }
    ensures answer { (found : Finding) → FoundAt (its_program (simulate_ask words.now).program) (F.state files.old).contents found →
        Gives effect_of (F.state files.old) (F.state files.new) result
        (simulate_of found (simulate_ask words.now) (F.state files.old).contents) }
    ensures found { (F.state files.old).told ≡ true → Tells (F.state files.old) result →
        HasFinding (its_program (simulate_ask words.now).program) (F.state files.old).contents }
    ensures names { KeepsTo (simulate_paths (simulate_ask words.now)) (simulated_paths (simulate_ask words.now).view) result }
    ensures ends { EndsDone result }
{
    let program = read_typed(alloc, files, &words.program)?;
    let part = read_public_file(alloc, files, &words.public)?;
    let opened = read_opened_file(alloc, files, &words.opened)?;
    let tapes = read_tape_file(alloc, files, &words.sim)?;
    let delivery = read_delivery(alloc, files, &words.order)?;
    let run = SimulatedRun {
        program: &program,
        part: &part,
        opened: &opened,
        tapes: &tapes,
        budget: words.budget,
        delivery: &delivery,
    };
    match simulate(alloc, words.miner, &run) {
        Ok(view) => Ok(simulate_plan(alloc, words, view)?),
        Err(refusal) => Err(simulate_stop(alloc, refusal)),
    }
}
