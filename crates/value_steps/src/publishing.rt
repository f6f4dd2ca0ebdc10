// What goes to the client.
ghost use Rattle.std.specs.Prelude.{◌≡◌, ◌≤◌};
ghost use Rattle.language_model.specs.Operations.{handed_over, publication, published};
ghost use Rattle.value_steps.specs.Steps.{Does, itself};
ghost use Rattle.value_steps.specs.Views.{stage_seen, value_seen, world_seen, secrecy_seen};

use crate::drawing::{draw, words_each};
use crate::gating::{gate, number_of, ring_for};
use crate::halt::Halt;
use crate::stage::Stage;
use crate::steps::charged;
use crate::telling::emit;
use crate::value::{Secrecy, Value};
use crate::world::World;
use gates::Gate;
use program_trees::DataType;
use sc_text::{Elements, Event, Name};
use std::alloc::Global;
use vector_ops::{elements, gate_size, printed_kind};

/// Hands a private value over: each miner's share of it is made anew for the client.
fn handed_over(
    alloc: Global,
    world: &World<'_>,
    stage: &mut Stage<'_>,
    value: &Value,
) -> Result<(), Halt>
    ensures step { Does itself (handed_over (world_seen world.now) (secrecy_seen value.now.secrecy) (value_seen value.now))
        (stage_seen stage.old) result (stage_seen stage.new) }
    ensures spends { stage.new.left ≤ stage.old.left }
{
    match value.secrecy {
        Secrecy::Plain => Ok(()),
        Secrecy::Private(_) => {
            let element = value.shape.element;
            draw(world, stage, words_each(gate_size(element, value.size())))?;
            let operand = number_of(alloc, stage, value)?;
            let ring = ring_for(element);
            gate(stage, Gate::Result { ring, operand })?;
            Ok(())
        }
    }
}

/// How it is told that a value goes to the client: a public one is published, a private one is handed over.
fn publication(secrecy: Secrecy, element: DataType, name: Name, given: Elements) -> Event
    ensures { result ≡ publication (secrecy_seen secrecy) element name given }
{
    match secrecy {
        Secrecy::Plain => Event::Publish(name, given),
        Secrecy::Private(_) => Event::Hand(name, printed_kind(element), given),
    }
}

/// Gives a value to the client, under a name. Of a private one no miner learns anything.
pub fn published(
    alloc: Global,
    world: &World<'_>,
    stage: &mut Stage<'_>,
    name: &Name,
    value: &Value,
) -> Result<(), Halt>
    ensures step { Does itself (published (world_seen world.now) name.now (value_seen value.now)) (stage_seen stage.old) result (stage_seen stage.new) }
    ensures spends { stage.new.left ≤ stage.old.left }
{
    charged(stage, value.size())?;
    handed_over(alloc, world, stage, value)?;
    let given = elements(alloc, value.shape.element, &value.words)?;
    let event = publication(value.secrecy, value.shape.element, name.copy(alloc)?, given);
    emit(stage, event)
}
