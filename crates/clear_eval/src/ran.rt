// The run of a program in a world, whatever its opened values are.
ghost use Rattle.std.specs.Prelude.{◌≡◌, ℕ, ◌-◌, ◌≤◌, IfOk, map, []};
ghost use Rattle.program_trees.specs.TypedPrograms.{typed_function_tree, typed_program_tree};
ghost use Rattle.program_trees.specs.Sound.{IsSound};
ghost use Rattle.language_model.specs.Effects.{Ended};
ghost use Rattle.language_model.specs.Evaluation.{deepest};
ghost use Rattle.language_model.specs.Reports.{reported, report_of, evaluated, world_of};
ghost use Rattle.value_steps.specs.Views.{given_seen, source_seen, stage_seen, world_seen};
ghost use Rattle.clear_eval.specs.Offers.{offered_with};
ghost use Rattle.clear_eval.specs.Reports.{stop_seen, ran_seen, report_seen};
ghost use Rattle.clear_eval.specs.inner.Standing.{body_at, AreSoundAmong};

use crate::beginning::Callee;
use crate::dealer::dealing;
use crate::evaluation::body;
use crate::report::{Needs, Report};
use program_trees::{TypedFunction, TypedProgram};
use sc_text::{End, Ending, Event, TapeOwner};
use std::alloc::{AllocError, Global};
use value_steps::{GivenInput, Halt, Lengths, MOST_CALLS, Source, Stage, World};

/// Why a run stopped.
#[derive(Clone, Copy)]
pub enum StopReason {
    Ended(Ending),
    /// An opened value wanted more answers than were left.
    Short,
}

/// What a run gave: why it stopped, its cost, the words that it needed of the dealer's tape, and how far it came.
pub struct Ran<'a> {
    pub stop: StopReason,
    pub cost: u64,
    pub dealt: u64,
    pub stage: Stage<'a>,
}

// Written out, so that who gives a run up calls this once, and doesn't take the run apart in its place.
impl Drop for Ran<'_> {
    fn drop(self) {
        match self {
            Ran {
                stop: _,
                cost: _,
                dealt: _,
                stage: _,
            } => {}
        }
    }
}

impl Ran<'_> {
    /// The report of the run, where it ended so.
    pub fn report(self, how: Ending) -> Report
        ensures { report_seen result ≡ record (ran_seen self.entry) { stop = Ended how } }
    {
        let Ran {
            stop: _,
            cost,
            dealt,
            stage,
        } = self;
        let Stage {
            drawn,
            gates,
            events,
            opened,
            ..
        } = stage;
        Report {
            end: End { how, cost },
            needs: Needs {
                dealer: dealt,
                first: drawn.first,
                second: drawn.second,
                third: drawn.third,
            },
            events,
            opened,
            gates,
        }
    }

    /// What the run told, as far as it came.
    pub fn events(self) -> Vec<Event>
        ensures { result.items ≡ (ran_seen self.entry).events }
    {
        let Ran {
            stop: _,
            cost: _,
            dealt: _,
            stage,
        } = self;
        let Stage { events, .. } = stage;
        events
    }
}

/// Runs `main`, function number 0, and tells why it stopped; where there is no function, nothing is done.
fn run_main(
    alloc: Global,
    world: &World<'_>,
    functions: &[TypedFunction],
    stage: &mut Stage<'_>,
) -> Result<StopReason, AllocError>
    requires { AreSoundAmong (map typed_function_tree functions.now) }
    ensures exact { IfOk result (λ stop. (budget : ℕ) →
        report_of (world_seen world.now) budget (body_at world.now functions.now (deepest - 1) 0 [] [] (stage_seen stage.old))
        ≡ reported (world_seen world.now) budget (stop_seen stop) (stage_seen stage.new)) }
    ensures spends { stage.new.left ≤ stage.old.left }
{
    if functions.is_empty() {
        return Ok(StopReason::Ended(Ending::Done));
    }
    let arguments = Vec::new(alloc);
    let callee = Callee {
        functions,
        depth: MOST_CALLS,
        number: 0,
        binding: &[],
    };
    match body(alloc, world, stage, &callee, arguments) {
        Ok(_) => Ok(StopReason::Ended(Ending::Done)),
        Err(Halt::Ended(ending)) => Ok(StopReason::Ended(ending)),
        Err(Halt::Short) => Ok(StopReason::Short),
        Err(Halt::Memory) => Err(AllocError),
    }
}

/// The world of a run on these inputs, with tapes of these lengths: the dealer's, and those of miners 1, 2 and 3.
pub fn world_of(source: Source, lengths: [u64; 4], inputs: &[GivenInput]) -> World<'_>
    ensures { world_seen result ≡ world_of (source_seen source) (offered_with (map given_seen inputs.now) lengths) }
{
    let [dealer, first, second, third] = lengths;
    World {
        dealer,
        lengths: Lengths {
            first,
            second,
            third,
        },
        source,
        inputs,
    }
}

/// Runs a program in a world, with this budget and these answers. A dealer's tape that is too short ends the run before it begins.
/// An error comes where memory runs short.
pub fn run<'a>(
    alloc: Global,
    world: &World<'_>,
    program: &TypedProgram,
    budget: u64,
    answers: &'a [u64],
) -> Result<Ran<'a>, AllocError>
    requires { IsSound (typed_program_tree program.now) }
    ensures { IfOk result (λ ran. ran_seen ran ≡ evaluated (world_seen world.now) (typed_program_tree program.now) budget answers.now) }
{
    let mut stage = Stage::new(alloc, budget, answers);
    let (need, have) = (dealing(world.inputs), world.dealer);
    if need > have as u128 {
        let owner = TapeOwner::Dealer;
        return Ok(Ran {
            stop: StopReason::Ended(Ending::Tape { owner, need, have }),
            cost: 0,
            dealt: 0,
            stage,
        });
    }
    let stop = run_main(alloc, world, &program.functions, &mut stage)?;
    Ok(Ran {
        stop,
        cost: budget - stage.left,
        dealt: need as u64,
        stage,
    })
}
