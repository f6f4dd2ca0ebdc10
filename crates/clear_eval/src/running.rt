// The run of a program.
ghost use Rattle.std.specs.Prelude.{◌≡◌, IfOk};
ghost use Rattle.value_file.specs.Input.{AreInputs};
ghost use Rattle.program_trees.specs.TypedPrograms.{typed_program_tree};
ghost use Rattle.program_trees.specs.Sound.{IsSound};
ghost use Rattle.language_model.specs.Reports.{eval};
ghost use Rattle.clear_eval.specs.Offers.{offered};
ghost use Rattle.clear_eval.specs.Reports.{report_seen};

use crate::offering::inputs_given;
use crate::ran::{StopReason, run, world_of};
use crate::report::Report;
use blind_evaluation::blind_runs_take_the_same_course;
use program_trees::TypedProgram;
use std::alloc::{AllocError, Global};
use value_file::Inputs;
use value_steps::Source;

/// The run of a program in the clear, on these inputs, with this budget and tapes of these lengths: the dealer's, and those of miners
/// 1, 2 and 3.
///
/// It tells what the three miners' run on shares tells and opens, with its end, its cost, the words that it needs and its gates.
/// An error comes where memory runs short.
pub fn eval(
    alloc: Global,
    program: &TypedProgram,
    inputs: &Inputs,
    budget: u64,
    lengths: [u64; 4],
) -> Result<Report, AllocError>
    requires sound { IsSound (typed_program_tree program.now) }
    requires inputs { AreInputs inputs.now }
    ensures { IfOk result (λ report. report_seen report ≡ eval (typed_program_tree program.now) (offered inputs.now lengths) budget) }
{
    let given = inputs_given(alloc, inputs)?;
    let world = world_of(Source::Clear, lengths, &given);
    let ran = run(alloc, &world, program, budget, &[])?;
    blind_runs_take_the_same_course();
    match ran.stop {
        StopReason::Ended(how) => Ok(ran.report(how)),
        StopReason::Short => unreachable!(),
    }
}
