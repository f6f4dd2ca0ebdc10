// The slots of a function that is running.
ghost use Rattle.std.specs.Prelude.{◌≡◌, ◌≤◌, ◌<◌, IfOk, length};
ghost use Rattle.reached_instances.specs.Views.{setting};
ghost use Rattle.language_model.specs.Values.{Value as Meant, plain, default_words};
ghost use Rattle.language_model.specs.Evaluation.{put, slot_shape, stored};
ghost use Rattle.value_steps.specs.Steps.{Does};
ghost use Rattle.value_steps.specs.Views.{value_seen, stage_seen};
ghost use Rattle.clear_eval.specs.inner.Views.{frame_seen, flow_seen};
ghost use Rattle.clear_eval.specs.inner.Elements.{with_element_in};

use crate::flow::Flow;
use crate::place::StatementContext;
use reached_instances::{slot_is_private, slot_shape};
use std::alloc::{AllocError, Global};
use std::mem;
use value_steps::{Halt, Secrecy, Stage, Value, charged, wanted, with_element};

/// What a declaration stores that names no value: 0, false or the empty array, which everybody may see.
pub fn default_value(
    alloc: Global,
    at: &StatementContext<'_>,
    slot: usize,
) -> Result<Value, AllocError>
    ensures { IfOk result (λ v. value_seen v ≡
        plain (slot_shape (setting at.now.here) slot) (default_words (slot_shape (setting at.now.here) slot).array)) }
{
    let shape = slot_shape(&at.here, slot);
    Value::never_stored(alloc, false, shape)
}

/// The value in a slot.
pub fn slot_value(frame: &Vec<Value>, slot: usize) -> &Value
    requires { slot < length frame.now.items }
    ensures { value_seen result.now ≡ frame_seen frame.now.items slot }
{
    &frame[slot]
}

/// Puts a value into a slot.
pub fn put(frame: &mut Vec<Value>, slot: usize, value: Value)
    requires { slot < length frame.old.items }
    ensures put { frame_seen frame.new.items ≡ put slot (value_seen value) (frame_seen frame.old.items) }
    ensures slots { length frame.new.items ≡ length frame.old.items }
{
    frame[slot] = value;
}

// Takes the value out of a slot, into which another is put next.
fn taken(alloc: Global, frame: &mut Vec<Value>, slot: usize) -> Value
    requires { slot < length frame.old.items }
    ensures value { value_seen result ≡ frame_seen frame.old.items slot }
    ensures others { (v : Meant) → put slot v (frame_seen frame.new.items) ≡ put slot v (frame_seen frame.old.items) }
    ensures slots { length frame.new.items ≡ length frame.old.items }
{
    let empty = Value {
        secrecy: Secrecy::Plain,
        shape: frame[slot].shape,
        words: Vec::new(alloc),
    };
    mem::replace(&mut frame[slot], empty)
}

/// The array that a statement changes: its slot, and the statement's line.
#[derive(Clone, Copy)]
pub struct ArrayPlace {
    pub line: u32,
    pub slot: usize,
}

/// Changes an element of the array in a slot, and goes on. The array is written in place.
pub fn set_element(
    alloc: Global,
    stage: &mut Stage<'_>,
    frame: &mut Vec<Value>,
    place: ArrayPlace,
    index: &Value,
    element: &Value,
) -> Result<Flow, Halt>
    requires { place.slot < length frame.old.items }
    ensures step { Does (flow_seen frame.new.items)
        (with_element_in place.line place.slot (value_seen index.now) (value_seen element.now) (frame_seen frame.old.items))
        (stage_seen stage.old) result (stage_seen stage.new) }
    ensures slots { length frame.new.items ≡ length frame.old.items }
    ensures spends { stage.new.left ≤ stage.old.left }
{
    let array = taken(alloc, frame, place.slot);
    let array = with_element(stage, place.line, array, index, element)?;
    put(frame, place.slot, array);
    Ok(Flow::Goes)
}

/// Stores a value in a whole variable, classified before where this is private, and goes on.
pub fn store(
    alloc: Global,
    at: &StatementContext<'_>,
    stage: &mut Stage<'_>,
    frame: &mut Vec<Value>,
    slot: usize,
    value: Value,
) -> Result<Flow, Halt>
    requires { slot < length frame.old.items }
    ensures step { Does (flow_seen frame.new.items) (stored (setting at.now.here) slot (value_seen value) (frame_seen frame.old.items))
        (stage_seen stage.old) result (stage_seen stage.new) }
    ensures slots { length frame.new.items ≡ length frame.old.items }
    ensures spends { stage.new.left ≤ stage.old.left }
{
    let value = wanted(alloc, stage, slot_is_private(&at.here, slot), value)?;
    charged(stage, value.size())?;
    put(frame, slot, value);
    Ok(Flow::Goes)
}
