// A run, and what each miner saw of it.
ghost use Rattle.std.specs.Prelude.{◌≡◌, IfOk};
ghost use Rattle.outside.specs.Tapes.{TapesState};
ghost use Rattle.value_file.specs.Input.{AreInputs};
ghost use Rattle.program_trees.specs.TypedPrograms.{typed_program_tree};
ghost use Rattle.delivered_run.specs.Accepted.{IsAccepted};
ghost use Rattle.delivered_run.specs.Deliveries.{delivery_seen};
ghost use Rattle.delivered_run.specs.Sources.{RunsFrom};
ghost use Rattle.delivered_run.specs.States.{CourseState, IsCourseIn, KeepInCourse};
ghost use Rattle.link_schedule.specs.Miners.{IsNetOf, KeepSo};
ghost use Rattle.link_schedule.specs.Streams.{StreamNet};
ghost use Rattle.miner_core.specs.declared.kept.Kept.TheVariants.{All};
ghost use Rattle.viewed_run.specs.Seats.{nothing_but};
ghost use Rattle.viewed_run.specs.Seen.{IsSeenRunOf, SeeIn, SeeOf};

use crate::seat::{first, second, third, view};
use delivered_run::{Course, CourseErr, DeliveredRun, Delivery, run_in_net};
use input_share::Dealt;
use link_schedule::Net3;
use miner_core::Kept;
use outside::TapeSource;
use program_trees::TypedProgram;
use proto_core::Number;
use sc_text::End;
use std::alloc::{AllocError, Global};
use value_file::Inputs;
use view_text::View;

/// What each of the three miners saw.
pub struct Views {
    pub one: View,
    pub two: View,
    pub three: View,
}

// Written out, so that an early exit calls this once.
impl Drop for Views {
    fn drop(self) {
        let Views {
            one: _,
            two: _,
            three: _,
        } = self;
    }
}

impl Views {
    /// What miners 1, 2 and 3 saw.
    pub fn into_each(self) -> (View, View, View)
        ensures { (result.0 ≡ self.one) × (result.1 ≡ self.two) × (result.2 ≡ self.three) }
    {
        let Views { one, two, three } = self;
        (one, two, three)
    }
}

/// A run of which all messages came, and what each miner saw of it.
pub struct SeenRun {
    pub run: DeliveredRun,
    pub views: Views,
}

// Written out, so that an early exit calls this once.
impl Drop for SeenRun {
    fn drop(self) {
        let SeenRun { run: _, views: _ } = self;
    }
}

impl SeenRun {
    /// The run, and what each miner saw of it.
    pub fn into_parts(self) -> (DeliveredRun, Views)
        ensures { (result.0 ≡ self.run) × (result.1 ≡ self.views) }
    {
        let SeenRun { run, views } = self;
        (run, views)
    }
}

// What the miners of a net saw, that keep all and have ended.
fn views_in(alloc: Global, net: &Net3, files: &Dealt) -> Result<Views, AllocError>
    requires { KeepSo All net.now }
    ensures { IfOk result (λ views. (s : StreamNet) → IsNetOf net.now s → SeeIn s files.now views) }
{
    let one = view(alloc, &first(net, files))?;
    let two = view(alloc, &second(net, files))?;
    let three = view(alloc, &third(net, files))?;
    Ok(Views { one, two, three })
}

// What a miner saw of a run that ended before it began: its end alone.
fn nothing_but(alloc: Global, miner: Number, end: End) -> View
    ensures { result ≡ nothing_but miner end }
{
    View::new(
        miner,
        Vec::new(alloc),
        Vec::new(alloc),
        Vec::new(alloc),
        Vec::new(alloc),
        end,
    )
}

// What the miners saw of a run, that keep all.
fn all_views(alloc: Global, course: &Course) -> Result<Views, AllocError>
    requires { KeepInCourse All course.now }
    ensures { IfOk result (λ views. (seen : CourseState) → IsCourseIn course.now seen → SeeOf seen views) }
{
    match course {
        Course::Dealt { files, end } => views_in(alloc, &end.net, files),
        Course::Undealt(run) => Ok(Views {
            one: nothing_but(alloc, Number::One, run.report.end),
            two: nothing_but(alloc, Number::Two, run.report.end),
            three: nothing_but(alloc, Number::Three, run.report.end),
        }),
    }
}

/// Runs a program as `run_delivered` does, and tells what each miner saw: its shares of the private inputs, the words that it drew, the
/// messages that came, in order of arrival, what was opened, and how it ended. Where the dealer's tape is too short for the inputs, each
/// saw the end alone. It draws from the source what `run_delivered` does, and is refused as it is.
pub fn run_seen<T: TapeSource>(
    alloc: Global,
    program: &TypedProgram,
    inputs: &Inputs,
    tapes: &mut T,
    budget: u64,
    delivery: &Delivery,
) -> Result<SeenRun, CourseErr>
    requires accepted { IsAccepted (typed_program_tree program.now) }
    requires inputs { AreInputs inputs.now }
    ensures { RunsFrom (T.state tapes.old) (T.state tapes.new) inputs.now result
        (λ t. IsSeenRunOf (typed_program_tree program.now) inputs.now t budget (delivery_seen delivery.now) result) }
{
    let course = run_in_net(alloc, program, inputs, tapes, budget, delivery, Kept::All)?;
    let views = all_views(alloc, &course)?;
    Ok(SeenRun {
        run: course.into_run(),
        views,
    })
}
