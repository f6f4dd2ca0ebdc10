// The run of one who is told what is opened.
ghost use Rattle.std.specs.Prelude.{[], length, IfOk};
ghost use Rattle.program_trees.specs.TypedPrograms.{typed_program_tree};
ghost use Rattle.program_trees.specs.Sound.{IsSound};
ghost use Rattle.value_file.specs.PublicFile.{IsWritable};
ghost use Rattle.clear_eval.specs.Reports.{IsBlindAnswer};
ghost use Rattle.view_simulator.specs.Sizes.{SizesFit};
ghost use Rattle.view_model.specs.Dealing.{hidden_sizes};
ghost use Rattle.program_views.specs.Views.{lengths_of, told_run};
ghost use Rattle.code_inputs.specs.Accepted.{IsAcceptedProgram};
ghost use Rattle.view_simulator.specs.Making.{CanBeMade};

use crate::script_laws::few_words_fit;
use crate::words::see_part;
use clear_eval::{BlindErr, Report, blind};
use input_share::see_words;
use program_trees::TypedProgram;
use std::alloc::Global;
use tape_file::Tapes;
use value_file::PublicPart;
use view_model::see_tapes;

/// The run of an accepted program by one who knows the public part alone and is told these words, with tapes as long as these. Its
/// gates can be run on them with the shares that are made for a miner, and none takes 2^64 elements.
pub(crate) fn run_told(
    alloc: Global,
    program: &TypedProgram,
    part: &PublicPart,
    opened: &[u64],
    tapes: &Tapes,
    budget: u64,
) -> Result<Report, BlindErr>
    requires sound { IsSound (typed_program_tree program.now) }
    requires accepted { IsAcceptedProgram (typed_program_tree program.now) }
    requires part { IsWritable part.now }
    ensures report { IsBlindAnswer result
        (told_run (typed_program_tree program.now) part.now opened.now (lengths_of tapes.now) budget) (length opened.now) }
    ensures can { IfOk result (λ report. CanBeMade part.now report.gates.items tapes.now) }
    ensures fit { IfOk result (λ report. SizesFit (hidden_sizes part.now) [] report.gates.items) }
{
    see_part(part.entries());
    see_words(opened);
    see_tapes(tapes);
    few_words_fit();
    blind(alloc, program, part, opened, budget, tapes.lengths())
}
