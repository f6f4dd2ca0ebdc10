// Twin tapes.
ghost use Rattle.std.specs.Prelude.{◌≡◌, IfOk, IfErr, OnOk};
ghost use Rattle.program_trees.specs.TypedPrograms.{typed_program_tree};
ghost use Rattle.program_trees.specs.Sound.{IsSound};
ghost use Rattle.value_file.specs.Input.{AreInputs};
ghost use Rattle.program_views.specs.Views.{lengths_of};
ghost use Rattle.program_views.specs.TapeMaps.{twinned, AreAlike};
ghost use Rattle.program_views.specs.Accepted.{IsAcceptedProgram};
ghost use Rattle.tape_twin.specs.Alike.{RefusesTwin};

use crate::alike::{first_difference, public_difference};
use crate::running::report_on;
use crate::tape_maps::{from_simulated, to_simulated};
use crate::twin_err::TwinErr;
use program_trees::TypedProgram;
use proto_core::Number;
use std::alloc::Global;
use tape_file::Tapes;
use value_file::Inputs;
use view_model::see_tapes;

/// Two inputs of a program.
#[derive(Clone, Copy)]
pub struct Both<'a> {
    pub first: &'a Inputs,
    pub second: &'a Inputs,
}

/// The tapes with which a miner's view of an accepted program's run on the second inputs is its view of the run on the first inputs with
/// these tapes, for two inputs that are alike: with the same public part, and with which the same words are opened.
///
/// Where they are not alike, the first difference is told, that of the public parts before that of the opened words.
pub fn twin(
    alloc: Global,
    miner: Number,
    program: &TypedProgram,
    inputs: Both,
    tapes: &Tapes,
    budget: u64,
) -> Result<Tapes, TwinErr>
    requires sound { IsSound (typed_program_tree program.now) }
    requires accepted { IsAcceptedProgram (typed_program_tree program.now) }
    requires first { AreInputs inputs.first.now }
    requires second { AreInputs inputs.second.now }
    ensures alike { OnOk result (AreAlike (typed_program_tree program.now) inputs.entry.first.now inputs.entry.second.now (lengths_of tapes.now) budget) }
    ensures twin { IfOk result (λ made.
        made ≡ twinned miner (typed_program_tree program.now) inputs.entry.first.now inputs.entry.second.now tapes.now budget) }
    ensures differ { IfErr result
        (RefusesTwin (typed_program_tree program.now) inputs.entry.first.now inputs.entry.second.now (lengths_of tapes.now) budget) }
{
    let Both { first, second } = inputs;
    match public_difference(alloc, first.entries(), second.entries())? {
        Some(name) => return Err(TwinErr::PublicDiffers(name)),
        None => {}
    }
    see_tapes(tapes);
    let one = report_on(alloc, program, first, tapes, budget)?;
    let other = report_on(alloc, program, second, tapes, budget)?;
    match first_difference(&one.opened, &other.opened) {
        Some((place, first, second)) => Err(TwinErr::OpenedDiffers {
            place,
            first,
            second,
        }),
        None => {
            // The tapes of the view are as long, so the second run has the same gates on them.
            let seen = to_simulated(alloc, miner, first, &one.gates, tapes)?;
            Ok(from_simulated(alloc, miner, second, &other.gates, &seen)?)
        }
    }
}
