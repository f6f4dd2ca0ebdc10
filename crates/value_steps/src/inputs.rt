// The inputs of a run.
ghost use Rattle.std.specs.Prelude.{◌≡◌, ◌≤◌, length, option_map};
ghost use Rattle.language_model.specs.Evaluation.{asked_for, given_value, input_named, is_as_declared};
ghost use Rattle.value_steps.specs.Steps.{Does, itself};
ghost use Rattle.value_steps.specs.Views.{stage_seen, value_seen, world_seen, given_seen, placed_seen};

use crate::gating::gate;
use crate::halt::Halt;
use crate::stage::Stage;
use crate::steps::{charge, test_at};
use crate::value::Value;
use crate::world::{GivenInput, World};
use gates::Gate;
use program_trees::Shape;
use sc_text::{Ending, Name, TrapKind};
use std::alloc::Global;

/// What an input is asked for as: private or not, and of a shape. The line is that of the statement.
#[derive(Clone, Copy)]
pub struct Asked {
    pub line: u32,
    pub private: bool,
    pub shape: Shape,
}

/// An input, and how many private ones stand before it.
#[derive(Clone, Copy)]
pub(crate) struct Placed<'w> {
    given: &'w GivenInput,
    before: u64,
}

/// The first input of a name.
fn input_named<'w>(world: &World<'w>, name: &Name) -> Option<Placed<'w>>
    ensures { option_map placed_seen result ≡ input_named (world_seen world.now) name.now }
{
    let mut before: u64 = 0;
    for given in world.inputs {
        if name.as_str() == given.name.as_str() {
            return Some(Placed { given, before });
        }
        if given.private {
            before += 1;
        }
    }
    None
}

/// Whether an input is as it is declared: private or not, and of this shape.
fn is_as_declared(private: bool, shape: Shape, given: &GivenInput) -> bool
    ensures { result ≡ is_as_declared private shape (given_seen given.now) }
{
    given.private == private && given.shape == shape
}

/// The value of an input that is wanted private or not.
fn given_value(
    alloc: Global,
    stage: &mut Stage<'_>,
    private: bool,
    placed: Placed<'_>,
) -> Result<Value, Halt>
    ensures step { Does value_seen (given_value private (given_seen placed.entry.given.now) placed.entry.before) (stage_seen stage.old) result
        (stage_seen stage.new) }
    ensures spends { stage.new.left ≤ stage.old.left }
{
    let words = Vec::from_slice(alloc, &placed.given.words)?;
    if private {
        let number = gate(
            stage,
            Gate::Input {
                number: placed.before,
            },
        )?;
        Ok(Value::hidden(placed.given.shape, number, words))
    } else {
        Ok(Value::plain(placed.given.shape, words))
    }
}

/// The input of a name, where one is asked for. Another one, or none, is a trap.
pub fn asked_for(
    alloc: Global,
    world: &World<'_>,
    stage: &mut Stage<'_>,
    asked: Asked,
    name: &Name,
) -> Result<Value, Halt>
    ensures step { Does value_seen (asked_for asked.private asked.shape asked.line (input_named (world_seen world.now) name.now))
        (stage_seen stage.old) result (stage_seen stage.new) }
    ensures spends { stage.new.left ≤ stage.old.left }
{
    charge(stage, 1)?;
    let Some(placed) = input_named(world, name) else {
        return Err(Halt::Ended(Ending::Trap {
            kind: TrapKind::Argument,
            line: asked.line,
        }));
    };
    let declared = is_as_declared(asked.private, asked.shape, placed.given);
    test_at(stage, declared, TrapKind::Argument, asked.line)?;
    let size = placed.given.words.len() as u64;
    charge(stage, size.saturating_sub(1))?;
    given_value(alloc, stage, asked.private, placed)
}
