// One step of the code, and the gates that it makes.
ghost use Rattle.std.specs.Prelude.{◌≡◌, ◌≤◌, [], true, IfOk, drop, length};
ghost use Rattle.code_machine.specs.Standing.{IsComing, Stands};
ghost use Rattle.own_code.specs.Places.{step_told};
ghost use Rattle.miner_core.specs.TurnViews.{place_in, step_answered, went_to};
ghost use Rattle.miner_core.specs.Engines.{IsDone};
ghost use Rattle.miner_core.specs.Views.{task_world, task_code};

use crate::opened::answers_told;
use crate::outcome::Turned;
use crate::step::{given_back, lent, turned};
use crate::task::Task;
use crate::telling::Told;
use code_machine::{Machine, take_step};
use gates::Gate;
use std::alloc::{AllocError, Global};
use value_steps::Stage;
use verified_code::Step;

/// The next step, which was read off the code, told no words. A step that doesn't go on leaves the machine as it was; with no memory left the
/// stage may be anything.
pub(crate) fn step_alone(
    alloc: Global,
    task: &Task,
    machine: &mut Machine,
    stage: &mut Stage<'_>,
    coming: Option<Step<'_>>,
) -> Result<Turned, AllocError>
    requires stands { Stands task.now.code machine.old }
    requires comes { IsComing task.now.code machine.old coming }
    ensures step { IfOk result (λ turned. step_told (task_world task.now) (task_code task.now) (place_in task.now.code machine.old stage.old) []
        ≡ went_to task.now.code turned machine.new stage.new) }
    ensures stands { Stands task.now.code machine.new }
{
    let world = task.world();
    stage.answers = &[];
    let stepped = take_step(alloc, &world, &task.code, machine, stage, coming);
    turned(stepped)
}

/// The next step, which was read off the code, with these answers. Answers that it doesn't take are let go. A step that doesn't go on leaves the
/// machine as it was; with no memory left the stage may be anything.
fn step_answered(
    alloc: Global,
    task: &Task,
    machine: &mut Machine,
    stage: &mut Stage<'_>,
    coming: Option<Step<'_>>,
    answers: &[u64],
) -> Result<Turned, AllocError>
    requires stands { Stands task.now.code machine.old }
    requires comes { IsComing task.now.code machine.old coming }
    ensures step { IfOk result (λ turned.
        step_answered (task_world task.now) (task_code task.now) (place_in task.now.code machine.old stage.old) answers.now
        ≡ went_to task.now.code turned machine.new stage.new) }
    ensures stands { Stands task.now.code machine.new }
{
    let world = task.world();
    let mut own = lent(alloc, stage, answers);
    let stepped = take_step(alloc, &world, &task.code, machine, &mut own, coming);
    *stage = given_back(own);
    turned(stepped)
}

/// The next step, which was read off the code, told these words that the gates have opened. What it doesn't take of them is let go. A step that
/// doesn't go on leaves the machine as it was; with no memory left the stage may be anything.
pub(crate) fn step_told(
    alloc: Global,
    task: &Task,
    machine: &mut Machine,
    stage: &mut Stage<'_>,
    coming: Option<Step<'_>>,
    told: &[u64],
) -> Result<Turned, AllocError>
    requires stands { Stands task.now.code machine.old }
    requires comes { IsComing task.now.code machine.old coming }
    ensures step { IfOk result (λ turned. step_told (task_world task.now) (task_code task.now) (place_in task.now.code machine.old stage.old) told.now
        ≡ went_to task.now.code turned machine.new stage.new) }
    ensures stands { Stands task.now.code machine.new }
{
    let answers = answers_told(alloc, coming, machine, told)?;
    step_answered(alloc, task, machine, stage, coming, &answers)
}

/// Whether a step has led on and is done with: no gate was made since so many were there, and no event.
pub(crate) fn is_done(turned: Turned, stage: &Stage<'_>, gates: usize, before: Told) -> bool
    ensures { result ≡ true → IsDone turned stage.now gates before }
{
    match turned {
        Turned::On => stage.gates.len() <= gates && stage.events.len() <= before.events,
        Turned::Over(_) | Turned::Short => false,
    }
}

/// The gates from this place of a list on, in memory of their own.
pub(crate) fn gates_from(
    alloc: Global,
    gates: &[Gate],
    from: usize,
) -> Result<Vec<Gate>, AllocError>
    ensures { IfOk result (λ own. own.items ≡ drop from gates.now) }
{
    let mut own = Vec::new(alloc);
    for place in from..gates.len() {
        own.push(gates[place].copy(alloc)?)?;
    }
    Ok(own)
}
