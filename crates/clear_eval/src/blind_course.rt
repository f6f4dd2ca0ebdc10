// The run of one who is told what is opened, as far as the opened words last.
ghost use Rattle.std.specs.Prelude.{IfOk};
ghost use Rattle.value_file.specs.PublicFile.{IsWritable};
ghost use Rattle.program_trees.specs.TypedPrograms.{typed_program_tree};
ghost use Rattle.program_trees.specs.Sound.{IsSound};
ghost use Rattle.language_model.specs.Effects.{Answers};
ghost use Rattle.language_model.specs.Reports.{world_of, evaluated};
ghost use Rattle.clear_eval.specs.Offers.{offered_part};
ghost use Rattle.clear_eval.specs.ToldRuns.{IsBlindRun};

use crate::public_offering::parts_given;
use crate::ran::{StopReason, run, world_of};
use crate::report::Report;
use program_trees::TypedProgram;
use sc_text::Event;
use std::alloc::{AllocError, Global};
use value_file::PublicPart;
use value_steps::Source;

/// The run of one who is told what is opened: its report, or where an opened value wanted more answers than were left what it told before.
#[derive(Drop)]
pub enum BlindRun {
    Ended(Report),
    Short(Vec<Event>),
}

/// The run of one who knows the public part of the inputs alone, and is told what is opened, as far as the answers last: zeros stand for the
/// private inputs, and each opened value takes its words from the answers. Lengths are those of the dealer's tape and of miners 1, 2 and 3,
/// in words.
///
/// An error comes where memory runs short.
pub fn run_blind(
    alloc: Global,
    program: &TypedProgram,
    part: &PublicPart,
    answers: &[u64],
    budget: u64,
    lengths: [u64; 4],
) -> Result<BlindRun, AllocError>
    requires sound { IsSound (typed_program_tree program.now) }
    requires part { IsWritable part.now }
    ensures { IfOk result (λ run. IsBlindRun run
        (evaluated (world_of Answers (offered_part part.now lengths)) (typed_program_tree program.now) budget answers.now)) }
{
    let given = parts_given(alloc, part)?;
    let world = world_of(Source::Answers, lengths, &given);
    let ran = run(alloc, &world, program, budget, answers)?;
    match ran.stop {
        StopReason::Ended(how) => Ok(BlindRun::Ended(ran.report(how))),
        StopReason::Short => Ok(BlindRun::Short(ran.events())),
    }
}
