// The two maps of a program's tapes.
ghost use Rattle.std.specs.Prelude.{◌≡◌, IfOk};
ghost use Rattle.program_trees.specs.TypedPrograms.{typed_program_tree};
ghost use Rattle.program_trees.specs.Sound.{IsSound};
ghost use Rattle.value_file.specs.Input.{AreInputs};
ghost use Rattle.clear_eval.specs.Reports.{report_seen};
ghost use Rattle.program_views.specs.Accepted.{IsAcceptedProgram};
ghost use Rattle.program_views.specs.Views.{lengths_of, run_on};
ghost use Rattle.client_view.specs.TapeMaps.{client_mapped, client_mapped_back};

use clear_eval::Report;
use program_trees::TypedProgram;
use std::alloc::{AllocError, Global};
use tape_file::Tapes;
use tape_twin::{from_client, report_on, to_client};
use value_file::Inputs;

/// A program's run in the clear, and the tapes that the client's view of it is made of.
pub struct MappedRun {
    pub report: Report,
    pub tapes: Tapes,
}

// Written out, so that an early exit calls this once.
impl Drop for MappedRun {
    fn drop(self) {
        let MappedRun {
            report: _,
            tapes: _,
        } = self;
    }
}

/// What an accepted program's run in the clear on these inputs and tapes gives, and with it what `to_sim` gives.
///
/// An error comes where memory runs short.
pub fn map_run(
    alloc: Global,
    program: &TypedProgram,
    inputs: &Inputs,
    tapes: &Tapes,
    budget: u64,
) -> Result<MappedRun, AllocError>
    requires sound { IsSound (typed_program_tree program.now) }
    requires accepted { IsAcceptedProgram (typed_program_tree program.now) }
    requires inputs { AreInputs inputs.now }
    ensures report { IfOk result (λ run. report_seen run.report ≡ run_on (typed_program_tree program.now) inputs.now (lengths_of tapes.now) budget) }
    ensures tapes { IfOk result (λ run. run.tapes ≡ client_mapped (typed_program_tree program.now) inputs.now tapes.now budget) }
{
    let report = report_on(alloc, program, inputs, tapes, budget)?;
    let tapes = to_client(alloc, inputs, &report.gates, tapes)?;
    Ok(MappedRun { report, tapes })
}

/// The tapes that the client's view of an accepted program's run on these inputs and tapes is made of: as many words of each party, the dealer's
/// and the third miner's as they are.
///
/// An error comes where memory runs short.
pub fn to_sim(
    alloc: Global,
    program: &TypedProgram,
    inputs: &Inputs,
    tapes: &Tapes,
    budget: u64,
) -> Result<Tapes, AllocError>
    requires sound { IsSound (typed_program_tree program.now) }
    requires accepted { IsAcceptedProgram (typed_program_tree program.now) }
    requires inputs { AreInputs inputs.now }
    ensures { IfOk result (λ made. made ≡ client_mapped (typed_program_tree program.now) inputs.now tapes.now budget) }
{
    let report = report_on(alloc, program, inputs, tapes, budget)?;
    to_client(alloc, inputs, &report.gates, tapes)
}

/// The way back: the tapes of the run on these inputs whose client's view is made of these.
///
/// An error comes where memory runs short.
pub fn from_sim(
    alloc: Global,
    program: &TypedProgram,
    inputs: &Inputs,
    tapes: &Tapes,
    budget: u64,
) -> Result<Tapes, AllocError>
    requires sound { IsSound (typed_program_tree program.now) }
    requires accepted { IsAcceptedProgram (typed_program_tree program.now) }
    requires inputs { AreInputs inputs.now }
    ensures { IfOk result (λ made. made ≡ client_mapped_back (typed_program_tree program.now) inputs.now tapes.now budget) }
{
    let report = report_on(alloc, program, inputs, tapes, budget)?;
    from_client(alloc, inputs, &report.gates, tapes)
}
