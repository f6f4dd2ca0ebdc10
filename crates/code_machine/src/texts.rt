// Inputs that are asked for by a name, and values that are published under one.
ghost use Rattle.std.specs.Prelude.{◌≡◌, IfOk};
ghost use Rattle.language_model.specs.Operations as row;
ghost use Rattle.language_model.specs.Evaluation.{asked_for, input_named};
ghost use Rattle.verified_code.specs.Steps.{kind_shape};
ghost use Rattle.value_steps.specs.Steps.{Does, itself};
ghost use Rattle.value_steps.specs.Views.{stage_seen, value_seen, world_seen};
ghost use Rattle.code_machine.specs.Views.{kept};
ghost use Rattle.code_machine.specs.Standing.{IsThere};

use crate::machine::Machine;
use bytecode::{Kind, Register};
use program_trees::Shape;
use sc_text::Name;
use std::alloc::{AllocError, Global};
use value_steps::{Asked, Halt, Stage, Value, World, asked_for, published};

/// A name of the code in memory of its own. Each name of verified code is one; for another text no memory is found.
pub fn name_in(alloc: Global, text: &str) -> Result<Name, AllocError>
    ensures { IfOk result (λ name. name ≡ text.now) }
{
    match Name::from_str(alloc, text)? {
        Some(name) => Ok(name),
        None => Err(AllocError),
    }
}

/// The input of a name, where one of this kind is wanted.
pub(crate) fn argument(
    alloc: Global,
    world: &World<'_>,
    stage: &mut Stage<'_>,
    line: u32,
    kind: Kind,
    text: &str,
) -> Result<Value, Halt>
    ensures { Does value_seen (asked_for kind.secret (kind_shape kind) line (input_named (world_seen world.now) text.now))
        (stage_seen stage.old) result (stage_seen stage.new) }
{
    let name = name_in(alloc, text)?;
    let asked = Asked {
        line,
        private: kind.secret,
        shape: Shape {
            element: kind.element,
            array: kind.array,
        },
    };
    asked_for(alloc, world, stage, asked, &name)
}

/// A value is published under a name.
pub(crate) fn publish(
    alloc: Global,
    world: &World<'_>,
    machine: &Machine,
    stage: &mut Stage<'_>,
    text: &str,
    source: Register,
) -> Result<(), Halt>
    requires { IsThere machine.now source }
    ensures { Does itself (row.published (world_seen world.now) text.now (kept machine.now source)) (stage_seen stage.old) result (stage_seen stage.new) }
{
    let name = name_in(alloc, text)?;
    published(alloc, world, stage, &name, machine.register(source))
}
