// How a program's run goes.
ghost use Rattle.std.specs.Prelude.{◌≡◌, ◌<◌, ◌≤◌, IfOk};
ghost use Rattle.outside.specs.Tapes.{TapesState};
ghost use Rattle.program_trees.specs.TypedPrograms.{typed_program_tree};
ghost use Rattle.value_file.specs.Input.{AreInputs};
ghost use Rattle.program_run.specs.Accepted.{IsAccepted};
ghost use Rattle.program_run.specs.Codes.{IsCodeOf};
ghost use Rattle.delivered_run.specs.Courses.{IsCourseOf};
ghost use Rattle.delivered_run.specs.Deliveries.{IsRunOf, delivery_seen};
ghost use Rattle.delivered_run.specs.Drawing.{lengths_in, DealerDraws, CourseDraws};
ghost use Rattle.delivered_run.specs.Sources.{RunsFrom};
ghost use Rattle.delivered_run.specs.States.{told_of, AsSeen, IsCourseIn, KeepInCourse};

use crate::errors::CourseErr;
use crate::running::{DeliveredRun, Job, NetRun, run_dealt, run_refused};
use counted_net::Delivery;
use input_share::{Dealt, deal, need, see_entries};
use miner_core::{Kept, Lost};
use outside::TapeSource;
use program_run::compile_program;
use program_trees::TypedProgram;
use std::alloc::Global;
use value_file::Inputs;
use verified_code::Verified;

/// How a program's run went.
pub enum Course {
    /// Its inputs were dealt in these files, and three miners ran its code to the end.
    Dealt { files: Dealt, end: NetRun },
    /// It ended before it began, since the dealer's tape has too few words for the inputs.
    Undealt(DeliveredRun),
}

// Written out, so that an early exit calls this once.
impl Drop for Course {
    fn drop(self) {
        match self {
            Course::Dealt { files: _, end: _ } => {}
            Course::Undealt(_) => {}
        }
    }
}

impl Course {
    /// What was told, and the links on which messages were delivered.
    pub fn into_run(self) -> DeliveredRun
        ensures { result ≡ told_of self }
    {
        match self {
            Course::Dealt { files: _, end } => end.into_run(),
            Course::Undealt(run) => run,
        }
    }
}

/// How many words the four tapes have: those of the dealer and of miners 1, 2 and 3.
fn lengths<T: TapeSource>(tapes: &T) -> [u64; 4]
    ensures { result ≡ lengths_in (T.state tapes.now) }
{
    [tapes.left(0), tapes.left(1), tapes.left(2), tapes.left(3)]
}

/// How many words are drawn where so many are needed and so many are left.
fn drawn_count(need: u128, left: u64) -> u64
    ensures needed { result ≤ need }
    ensures left { result ≤ left }
    ensures all { result < need → result ≡ left }
{
    if u128::from(left) < need {
        left
    } else {
        need as u64
    }
}

/// The words of the dealer's tape that it needs for the inputs, or all where these are fewer.
fn dealer_words<T: TapeSource>(
    alloc: Global,
    inputs: &Inputs,
    tapes: &mut T,
) -> Result<Vec<u64>, Lost>
    ensures { DealerDraws (T.state tapes.old) (T.state tapes.new) inputs.now (λ words. words.items) result }
{
    let count = drawn_count(need(inputs.entries()), tapes.left(0));
    let mut words = vec![in alloc; 0u64; count as usize]?;
    match tapes.take(0, words.as_mut_slice()) {
        Ok(()) => Ok(words),
        Err(_) => Err(Lost::TapeFault),
    }
}

/// What a run begins with: its code, how many words the four tapes have, and the words of the dealer's tape for the inputs.
#[derive(Drop)]
struct Preparation {
    code: Verified,
    lengths: [u64; 4],
    words: Vec<u64>,
}

/// What a run begins with: the code is verified, and the dealer draws.
fn prepared<T: TapeSource>(
    alloc: Global,
    program: &TypedProgram,
    inputs: &Inputs,
    tapes: &mut T,
) -> Result<Preparation, Lost>
    requires { IsAccepted (typed_program_tree program.now) }
    ensures code { IfOk result (λ s. IsCodeOf (typed_program_tree program.now) s.code) }
    ensures lengths { IfOk result (λ s. s.lengths ≡ lengths_in (T.state tapes.old)) }
    ensures draws { DealerDraws (T.state tapes.old) (T.state tapes.new) inputs.now (λ s. s.words.items) result }
{
    let code = compile_program(alloc, program)?;
    let lengths = lengths(tapes);
    let words = dealer_words(alloc, inputs, tapes)?;
    Ok(Preparation {
        code,
        lengths,
        words,
    })
}

/// The inputs are dealt with these words of the dealer's, and three miners that keep this of what is done with run the code; or they can't be dealt.
fn run_with<T: TapeSource>(
    alloc: Global,
    job: &Job<'_>,
    words: &[u64],
    past: Kept,
    delivery: &Delivery,
    tapes: &mut T,
) -> Result<Course, CourseErr>
    requires { AreInputs job.now.inputs.now }
    ensures runs { AsSeen IsCourseIn
        (CourseDraws job.now words.now (delivery_seen delivery.now) (T.state tapes.old) (T.state tapes.new)) result }
    ensures kept { IfOk result (KeepInCourse past) }
{
    match deal(alloc, job.inputs, words, job.lengths) {
        Ok(files) => {
            let end = run_dealt(alloc, job, &files, past, delivery, tapes)?;
            Ok(Course::Dealt { files, end })
        }
        Err(refusal) => {
            let run = run_refused(alloc, refusal, delivery)?;
            Ok(Course::Undealt(run))
        }
    }
}

/// Runs a program: its code is verified, its inputs are dealt with the next words of the dealer's tape, as many as they need, and three miners, each with
/// its shares and its tape alone, run the code, with their messages delivered in this order. The words of the tapes are drawn from the source when they are
/// needed. The miners keep all, or let go what is done with; what was dealt and the three miners, as they then stand, are kept.
///
/// A schedule is refused for its first entry without a message, else for the lowest miner that it leaves waiting. `TapeFault` comes only where
/// the source counted a fault in this call, and never where it is steady. What is said holds with all four tapes of words that begin with the words
/// drawn and have as many after them as are left; where the source tells its words, with those that it had.
pub fn run_in_net<T: TapeSource>(
    alloc: Global,
    program: &TypedProgram,
    inputs: &Inputs,
    tapes: &mut T,
    budget: u64,
    delivery: &Delivery,
    past: Kept,
) -> Result<Course, CourseErr>
    requires accepted { IsAccepted (typed_program_tree program.now) }
    requires inputs { AreInputs inputs.now }
    ensures runs { AsSeen IsCourseIn (λ seen. RunsFrom (T.state tapes.old) (T.state tapes.new) inputs.now seen
        (λ t. IsCourseOf (typed_program_tree program.now) inputs.now t budget (delivery_seen delivery.now) seen)) result }
    ensures kept { IfOk result (KeepInCourse past) }
{
    see_entries(inputs.entries());
    let prepared = prepared(alloc, program, inputs, tapes)?;
    let job = Job {
        code: &prepared.code,
        inputs,
        lengths: prepared.lengths,
        budget,
    };
    run_with(alloc, &job, &prepared.words, past, delivery, tapes)
}

/// Runs a program as `run_in_net` does, and keeps what the miners told and on which links messages were delivered. The miners let go what is done
/// with: no message stays that was taken, and no word of a tape that was drawn.
pub fn run_delivered<T: TapeSource>(
    alloc: Global,
    program: &TypedProgram,
    inputs: &Inputs,
    tapes: &mut T,
    budget: u64,
    delivery: &Delivery,
) -> Result<DeliveredRun, CourseErr>
    requires accepted { IsAccepted (typed_program_tree program.now) }
    requires inputs { AreInputs inputs.now }
    ensures { RunsFrom (T.state tapes.old) (T.state tapes.new) inputs.now result
        (λ t. IsRunOf (typed_program_tree program.now) inputs.now t budget (delivery_seen delivery.now) result) }
{
    let past = Kept::Needed;
    let course = run_in_net(alloc, program, inputs, tapes, budget, delivery, past)?;
    Ok(course.into_run())
}
