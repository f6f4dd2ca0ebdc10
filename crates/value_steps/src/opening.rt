// Private values that become known to all.
ghost use Rattle.std.specs.Prelude.{◌≡◌, ◌≤◌, length, IfOk};
ghost use Rattle.language_model.specs.Operations.{declassified, opened_from, revealed, read_answer};
ghost use Rattle.value_steps.specs.Steps.{Does, itself};
ghost use Rattle.value_steps.specs.Views.{stage_seen, value_seen, world_seen, secrecy_seen};

use crate::drawing::{draw, words_each};
use crate::gating::{gate, number_of, ring_for};
use crate::halt::Halt;
use crate::stage::Stage;
use crate::steps::charged;
use crate::telling::{answer, emit, show};
use crate::value::{Secrecy, Value};
use crate::world::World;
use gates::Gate;
use program_trees::DataType;
use sc_text::Event;
use std::alloc::{AllocError, Global};
use vector_ops::{elements, gate_size, low_bits};

/// An answer as words of a data type: a truth value is read from bit 0.
fn read_answer(alloc: Global, element: DataType, words: Vec<u64>) -> Result<Vec<u64>, AllocError>
    ensures words { IfOk result (λ read. read.items ≡ read_answer element words.items) }
    ensures size { IfOk result (λ read. length read.items ≡ length words.items) }
{
    match element {
        DataType::Uint64 | DataType::Int64 => Ok(words),
        DataType::Bool => low_bits(alloc, &words),
    }
}

/// An opened value, which is known to all from then on.
fn revealed(
    alloc: Global,
    world: &World<'_>,
    stage: &mut Stage<'_>,
    value: Value,
) -> Result<Value, Halt>
    ensures step { Does value_seen (revealed (world_seen world.now) (value_seen value)) (stage_seen stage.old) result (stage_seen stage.new) }
    ensures spends { stage.new.left ≤ stage.old.left }
{
    let shape = value.shape;
    let told = answer(alloc, world.source, stage, value.into_words())?;
    let words = read_answer(alloc, shape.element, told)?;
    show(stage, &words)?;
    let opened = elements(alloc, shape.element, &words)?;
    emit(stage, Event::Open(opened))?;
    Ok(Value::plain(shape, words))
}

/// Opens a private value that was charged; a public one stays as it is.
fn opened(
    alloc: Global,
    world: &World<'_>,
    stage: &mut Stage<'_>,
    value: Value,
) -> Result<Value, Halt>
    ensures step { Does value_seen (opened_from (world_seen world.now) (secrecy_seen value.secrecy) (value_seen value)) (stage_seen stage.old) result
        (stage_seen stage.new) }
    ensures spends { stage.new.left ≤ stage.old.left }
{
    match value.secrecy {
        Secrecy::Plain => Ok(value),
        Secrecy::Private(_) => {
            let element = value.shape.element;
            draw(world, stage, words_each(gate_size(element, value.size())))?;
            let operand = number_of(alloc, stage, &value)?;
            let ring = ring_for(element);
            gate(stage, Gate::Open { ring, operand })?;
            revealed(alloc, world, stage, value)
        }
    }
}

/// Opens a private value; a public one stays as it is. Both are charged.
pub fn declassified(
    alloc: Global,
    world: &World<'_>,
    stage: &mut Stage<'_>,
    value: Value,
) -> Result<Value, Halt>
    ensures step { Does value_seen (declassified (world_seen world.now) (value_seen value)) (stage_seen stage.old) result (stage_seen stage.new) }
    ensures spends { stage.new.left ≤ stage.old.left }
{
    charged(stage, value.size())?;
    opened(alloc, world, stage, value)
}
