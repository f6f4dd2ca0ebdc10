// The two maps of a program's tapes.
ghost use Rattle.std.specs.Prelude.{◌≡◌, IfOk};
ghost use Rattle.program_trees.specs.TypedPrograms.{typed_program_tree};
ghost use Rattle.program_trees.specs.Sound.{IsSound};
ghost use Rattle.value_file.specs.Input.{AreInputs};
ghost use Rattle.program_views.specs.TapeMaps.{mapped, mapped_back};
ghost use Rattle.program_views.specs.Accepted.{IsAcceptedProgram};

use crate::running::report_on;
use crate::tape_maps::{from_simulated, to_simulated};
use program_trees::TypedProgram;
use proto_core::Number;
use std::alloc::{AllocError, Global};
use tape_file::Tapes;
use value_file::Inputs;

/// The tapes that a miner's view of an accepted program's run on these inputs and tapes is made of: as many words of each party, and the
/// miner's own as they are.
///
/// An error comes where memory runs short.
pub fn to_sim(
    alloc: Global,
    miner: Number,
    program: &TypedProgram,
    inputs: &Inputs,
    tapes: &Tapes,
    budget: u64,
) -> Result<Tapes, AllocError>
    requires sound { IsSound (typed_program_tree program.now) }
    requires accepted { IsAcceptedProgram (typed_program_tree program.now) }
    requires inputs { AreInputs inputs.now }
    ensures { IfOk result (λ made. made ≡ mapped miner (typed_program_tree program.now) inputs.now tapes.now budget) }
{
    let report = report_on(alloc, program, inputs, tapes, budget)?;
    to_simulated(alloc, miner, inputs, &report.gates, tapes)
}

/// The way back: the tapes of the run on these inputs whose view is made of these.
///
/// An error comes where memory runs short.
pub fn from_sim(
    alloc: Global,
    miner: Number,
    program: &TypedProgram,
    inputs: &Inputs,
    tapes: &Tapes,
    budget: u64,
) -> Result<Tapes, AllocError>
    requires sound { IsSound (typed_program_tree program.now) }
    requires accepted { IsAcceptedProgram (typed_program_tree program.now) }
    requires inputs { AreInputs inputs.now }
    ensures { IfOk result (λ made. made ≡ mapped_back miner (typed_program_tree program.now) inputs.now tapes.now budget) }
{
    let report = report_on(alloc, program, inputs, tapes, budget)?;
    from_simulated(alloc, miner, inputs, &report.gates, tapes)
}
