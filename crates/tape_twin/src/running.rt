// A program's run in the clear.
ghost use Rattle.std.specs.Prelude.{◌≡◌, ◌<◌, [], length, IfOk};
ghost use Rattle.program_trees.specs.TypedPrograms.{typed_program_tree};
ghost use Rattle.program_trees.specs.Sound.{IsSound};
ghost use Rattle.value_file.specs.Input.{AreInputs};
ghost use Rattle.input_share.specs.Dealing.{need_of};
ghost use Rattle.clear_eval.specs.Reports.{report_seen};
ghost use Rattle.view_model.specs.TapeMaps.{CanRun};
ghost use Rattle.program_views.specs.Views.{lengths_of, run_on};
ghost use Rattle.program_views.specs.Accepted.{IsAcceptedProgram};

use clear_eval::{Report, eval};
use input_share::see_entries;
use program_trees::TypedProgram;
use std::alloc::{AllocError, Global};
use tape_file::Tapes;
use value_file::Inputs;
use view_model::see_tapes;

/// The run of an accepted program in the clear, with tapes as long as these. Its gates can run on them.
pub fn report_on(
    alloc: Global,
    program: &TypedProgram,
    inputs: &Inputs,
    tapes: &Tapes,
    budget: u64,
) -> Result<Report, AllocError>
    requires sound { IsSound (typed_program_tree program.now) }
    requires accepted { IsAcceptedProgram (typed_program_tree program.now) }
    requires inputs { AreInputs inputs.now }
    ensures report { IfOk result (λ report. report_seen report ≡ run_on (typed_program_tree program.now) inputs.now (lengths_of tapes.now) budget) }
    ensures can { IfOk result (λ report. CanRun inputs.now report.gates.items tapes.now) }
    ensures none { IfOk result (λ report. length tapes.now.dealer < need_of inputs.now → report.gates.items ≡ []) }
{
    see_entries(inputs.entries());
    see_tapes(tapes);
    eval(alloc, program, inputs, budget, tapes.lengths())
}
