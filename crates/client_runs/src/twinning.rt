// Twin tapes.
ghost use Rattle.std.specs.Prelude.{◌≡◌, IfOk, IfErr, OnOk};
ghost use Rattle.program_trees.specs.TypedPrograms.{typed_program_tree};
ghost use Rattle.program_trees.specs.Sound.{IsSound};
ghost use Rattle.value_file.specs.Input.{AreInputs};
ghost use Rattle.program_views.specs.Accepted.{IsAcceptedProgram};
ghost use Rattle.program_views.specs.Views.{lengths_of};
ghost use Rattle.client_view.specs.TapeMaps.{client_twinned, AreAlikeToClient};
ghost use Rattle.client_runs.specs.Alike.{RefusesClientTwin};

use crate::alike::run_difference;
use crate::twin_err::TwinErr;
use input_share::see_entries;
use program_trees::TypedProgram;
use std::alloc::Global;
use tape_file::Tapes;
use tape_twin::{Both, from_client, public_difference, report_on, to_client};
use value_file::Inputs;
use view_model::see_tapes;

/// The tapes with which the client's view of an accepted program's run on the second inputs is its view of the run on the first inputs with
/// these tapes, for two inputs that are alike to it: with the same public part, and with which the same words are opened and the same
/// handed over.
///
/// Where they are not alike, the first difference is told, that of the public parts before that of the opened words, and this before that of
/// what is handed over.
pub fn twin(
    alloc: Global,
    program: &TypedProgram,
    inputs: Both,
    tapes: &Tapes,
    budget: u64,
) -> Result<Tapes, TwinErr>
    requires sound { IsSound (typed_program_tree program.now) }
    requires accepted { IsAcceptedProgram (typed_program_tree program.now) }
    requires first { AreInputs inputs.first.now }
    requires second { AreInputs inputs.second.now }
    ensures alike { OnOk result
        (AreAlikeToClient (typed_program_tree program.now) inputs.entry.first.now inputs.entry.second.now (lengths_of tapes.now) budget) }
    ensures twin { IfOk result (λ made.
        made ≡ client_twinned (typed_program_tree program.now) inputs.entry.first.now inputs.entry.second.now tapes.now budget) }
    ensures differ { IfErr result
        (RefusesClientTwin (typed_program_tree program.now) inputs.entry.first.now inputs.entry.second.now (lengths_of tapes.now) budget) }
{
    let Both { first, second } = inputs;
    match public_difference(alloc, first.entries(), second.entries())? {
        Some(name) => return Err(TwinErr::PublicDiffers(name)),
        None => {}
    }
    see_entries(first.entries());
    see_tapes(tapes);
    let one = report_on(alloc, program, first, tapes, budget)?;
    let other = report_on(alloc, program, second, tapes, budget)?;
    run_difference(alloc, &one, &other)?;
    // The tapes of the view are as long, so the second run has the same gates on them.
    let seen = to_client(alloc, first, &one.gates, tapes)?;
    Ok(from_client(alloc, second, &other.gates, &seen)?)
}
