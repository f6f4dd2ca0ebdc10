// The client's view.
ghost use Rattle.std.specs.Prelude.{◌≡◌, Some, IfOk};
ghost use Rattle.program_trees.specs.TypedPrograms.{typed_program_tree};
ghost use Rattle.program_trees.specs.Sound.{IsSound};
ghost use Rattle.value_file.specs.Input.{AreInputs};
ghost use Rattle.program_views.specs.Accepted.{IsAcceptedProgram};
ghost use Rattle.client_view.specs.Views.{client_view_of};

use crate::given::given_in;
use crate::seeing::sightings;
use client_text::ClientView;
use program_trees::TypedProgram;
use std::alloc::{AllocError, Global};
use tape_file::Tapes;
use tape_twin::report_on;
use value_file::Inputs;

/// What the client sees of an accepted program's run on these inputs and tapes: what is opened and published, of each value that is handed over
/// the three miners' shares, and the end.
///
/// An error comes where memory runs short.
pub fn view(
    alloc: Global,
    program: &TypedProgram,
    inputs: &Inputs,
    tapes: &Tapes,
    budget: u64,
) -> Result<ClientView, AllocError>
    requires sound { IsSound (typed_program_tree program.now) }
    requires accepted { IsAcceptedProgram (typed_program_tree program.now) }
    requires inputs { AreInputs inputs.now }
    ensures { IfOk result (λ view. client_view_of (typed_program_tree program.now) inputs.now tapes.now budget ≡ Some view) }
{
    let report = report_on(alloc, program, inputs, tapes, budget)?;
    let given = given_in(alloc, inputs, &report.gates, tapes)?;
    let sightings = sightings(alloc, &report.events, &given)?;
    Ok(ClientView {
        sightings,
        end: report.end,
    })
}
