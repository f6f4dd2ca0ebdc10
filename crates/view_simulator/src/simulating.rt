// The simulator.
ghost use Rattle.program_trees.specs.TypedPrograms.{typed_program_tree};
ghost use Rattle.program_trees.specs.Sound.{IsSound};
ghost use Rattle.value_file.specs.PublicFile.{IsWritable};
ghost use Rattle.counted_net.specs.Answers.{delivery_seen};
ghost use Rattle.code_inputs.specs.Accepted.{IsAcceptedProgram};
ghost use Rattle.view_simulator.specs.Simulating.{IsSimulation};

use crate::errors::SimulateErr;
use crate::made::made_seen;
use crate::net::delivered;
use crate::telling::run_told;
use crate::view::view_of;
use counted_net::Delivery;
use program_trees::TypedProgram;
use proto_core::Number;
use std::alloc::Global;
use tape_file::Tapes;
use value_file::PublicPart;
use view_text::View;

/// What the simulator is told of a run: the program, what everybody may know of the inputs, the words that are opened, one after another,
/// and tapes, a budget and a delivery.
#[derive(Clone, Copy)]
pub struct SimulatedRun<'r> {
    pub program: &'r TypedProgram,
    pub part: &'r PublicPart,
    pub opened: &'r [u64],
    pub tapes: &'r Tapes,
    pub budget: u64,
    pub delivery: &'r Delivery,
}

/// The view that the simulator makes for a miner of a run of an accepted program. Words that are told after those that are opened are left
/// alone.
///
/// Where an opened value wants more words than were told, that is said, and else, where the delivery is refused, for which entry, or which
/// miner still waits. An error also comes where memory runs short.
pub fn simulate(alloc: Global, miner: Number, run: &SimulatedRun<'_>) -> Result<View, SimulateErr>
    requires sound { IsSound (typed_program_tree run.now.program.now) }
    requires accepted { IsAcceptedProgram (typed_program_tree run.now.program.now) }
    requires part { IsWritable run.now.part.now }
    ensures { IsSimulation miner (typed_program_tree run.now.program.now) run.now.part.now run.now.opened.now run.now.tapes.now run.now.budget
        (delivery_seen run.now.delivery.now) result }
{
    let report = run_told(
        alloc,
        run.program,
        run.part,
        run.opened,
        run.tapes,
        run.budget,
    )?;
    let order = delivered(alloc, run.part, &report.gates, run.delivery)?;
    let made = made_seen(alloc, miner, run.part, &report, run.tapes, &order)?;
    Ok(view_of(alloc, miner, made, &report)?)
}
