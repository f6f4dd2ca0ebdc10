// The run of one who knows the public part of the inputs, and what is opened.
ghost use Rattle.std.specs.Prelude.{length};
ghost use Rattle.value_file.specs.PublicFile.{IsWritable};
ghost use Rattle.program_trees.specs.TypedPrograms.{typed_program_tree};
ghost use Rattle.program_trees.specs.Sound.{IsSound};
ghost use Rattle.language_model.specs.Effects.{Answers};
ghost use Rattle.language_model.specs.Reports.{world_of, evaluated};
ghost use Rattle.clear_eval.specs.Offers.{offered_part};
ghost use Rattle.clear_eval.specs.Reports.{IsBlindAnswer};

use crate::public_offering::parts_given;
use crate::ran::{StopReason, run, world_of};
use crate::report::Report;
use program_trees::TypedProgram;
use std::alloc::{AllocError, Global};
use value_file::PublicPart;
use value_steps::Source;

/// Why a blind run has no report.
#[derive(Clone, Copy)]
pub enum BlindErr {
    /// An opened value wanted more answers than were left; `have` were given in all.
    OpenedShort { have: u64 },
    Memory,
}

impl From<AllocError> for BlindErr {
    ghost use Rattle.std.specs.Prelude.{◌≡◌};
    ghost use Rattle.clear_eval.specs.declared.blind_run.BlindErr.TheVariants.{Memory};

    ghost from_gives = { λ _ error. error ≡ Memory };

    fn from(_error: AllocError) -> BlindErr {
        BlindErr::Memory
    }
}

/// The run of one who knows the public part of the inputs alone, and is told what is opened: zeros stand for the private inputs, and
/// each opened value takes its words from the answers. Lengths are those of the dealer's tape and of miners 1, 2 and 3, in words.
///
/// `OpenedShort` comes exactly where an opened value wants more answers than are left, and `Memory` where memory runs short.
pub fn blind(
    alloc: Global,
    program: &TypedProgram,
    part: &PublicPart,
    answers: &[u64],
    budget: u64,
    lengths: [u64; 4],
) -> Result<Report, BlindErr>
    requires sound { IsSound (typed_program_tree program.now) }
    requires part { IsWritable part.now }
    ensures { IsBlindAnswer result
        (evaluated (world_of Answers (offered_part part.now lengths)) (typed_program_tree program.now) budget answers.now) (length answers.now) }
{
    let given = parts_given(alloc, part)?;
    let world = world_of(Source::Answers, lengths, &given);
    let ran = run(alloc, &world, program, budget, answers)?;
    match ran.stop {
        StopReason::Ended(how) => Ok(ran.report(how)),
        StopReason::Short => Err(BlindErr::OpenedShort {
            have: answers.len() as u64,
        }),
    }
}
