// Three miners are started, and then waited for.
ghost use Rattle.std.specs.Prelude.{◌≡◌, Ok};
ghost use Rattle.proto_core.specs.Parties.{of_three};
ghost use Rattle.trio.specs.Children.{all_answers};
ghost use Rattle.trio.specs.Launches.{Launched, StartedWith};
ghost use Rattle.trio.specs.Words.{miner_words};
ghost use Rattle.trio.specs.inner.Moves.{Tried, Begun, Waited};

use crate::asking::{child_answer, lacked_memory};
use crate::child_err::ChildErr;
use crate::paths::miner_words;
use outside::{Files, SpawnErr, Spawner};
use proto_core::Number;
use std::alloc::Global;

/// What the three miners are started with, apart from their numbers.
#[derive(Clone, Copy)]
pub struct Job<'a> {
    pub prefix: &'a str,
    pub port: u16,
    pub budget: u64,
}

/// The numbers of three children, by miner.
#[derive(Clone, Copy)]
struct Children {
    first: u32,
    second: u32,
    third: u32,
}

/// What waiting for each of three children has answered, by miner.
#[derive(Clone, Copy)]
struct Answers {
    first: Result<i32, SpawnErr>,
    second: Result<i32, SpawnErr>,
    third: Result<i32, SpawnErr>,
}

/// Starts a miner.
fn start<F: Files, C: Spawner>(
    alloc: Global,
    job: &Job<'_>,
    miner: Number,
    files: &F,
    children: &mut C,
) -> Result<u32, SpawnErr>
    ensures held { StartedWith (F.state files.now) (C.state children.old) (C.state children.new) }
    ensures tried { Tried (C.state children.old) (C.state children.new) (miner_words job.now.prefix.now job.now.port job.now.budget miner) result }
{
    let words = miner_words(alloc, job.prefix, job.port, job.budget, miner)?;
    children.start(alloc, files, &words)
}

/// Starts the three miners, one after another. None is started after one that could not be.
fn start_all<F: Files, C: Spawner>(
    alloc: Global,
    job: &Job<'_>,
    files: &F,
    children: &mut C,
) -> Result<Children, SpawnErr>
    ensures held { StartedWith (F.state files.now) (C.state children.old) (C.state children.new) }
    ensures begun { Begun (C.state children.old) (C.state children.new) (miner_words job.now.prefix.now job.now.port job.now.budget)
        (λ three. of_three three.first three.second three.third) result }
{
    let first = start(alloc, job, Number::One, files, children)?;
    let second = start(alloc, job, Number::Two, files, children)?;
    let third = start(alloc, job, Number::Three, files, children)?;
    Ok(Children {
        first,
        second,
        third,
    })
}

/// Waits for each of three children, whatever the others have answered.
fn wait_all<C: Spawner>(three: Children, children: &mut C) -> Answers
    ensures held { (C.state children.new).held ≡ (C.state children.old).held }
    ensures waited { Waited (C.state children.old) (C.state children.new) (of_three three.first three.second three.third)
        (of_three result.first result.second result.third) }
{
    let first = children.wait(three.first);
    let second = children.wait(three.second);
    let third = children.wait(three.third);
    Answers {
        first,
        second,
        third,
    }
}

/// What the answers of three children mean: that memory ran short, or else the first that is no end of a run.
fn judged(answers: &Answers) -> Result<(), ChildErr>
    ensures { result ≡ all_answers (of_three answers.now.first answers.now.second answers.now.third) }
{
    if lacked_memory(answers.first)
        || lacked_memory(answers.second)
        || lacked_memory(answers.third)
    {
        return Err(ChildErr::Memory);
    }
    child_answer(Number::One, answers.first)?;
    child_answer(Number::Two, answers.second)?;
    child_answer(Number::Three, answers.third)
}

/// Starts three miners, one after another, and then waits for each; where one can't be started, no more is started and none is
/// waited for. The store is as this one is when they are started. Of the miners that did not end as a run does the first is told.
pub fn launch<F: Files, C: Spawner>(
    alloc: Global,
    job: &Job<'_>,
    files: &F,
    children: &mut C,
) -> Result<(), ChildErr>
    ensures held { StartedWith (F.state files.now) (C.state children.old) (C.state children.new) }
    ensures launched { Launched (C.state children.old) (C.state children.new) (miner_words job.now.prefix.now job.now.port job.now.budget) result }
{
    let three = start_all(alloc, job, files, children)?;
    let answers = wait_all(three, children);
    judged(&answers)
}
