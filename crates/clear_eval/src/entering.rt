// How a function is entered and left.
ghost use Rattle.std.specs.Prelude.{◌≡◌, ◌≤◌, IfOk, length, map};
ghost use Rattle.std.specs.List.{slice_get};
ghost use Rattle.language_model.specs.Evaluation.{begins, entered};
ghost use Rattle.value_steps.specs.Views.{value_seen};
ghost use Rattle.clear_eval.specs.inner.Views.{frame_seen};

use program_trees::Slot;
use reached_instances::{BoundDomain, domain_under};
use std::alloc::{AllocError, Global};
use value_steps::Value;

/// What the slot of this number begins as where a function is called under this binding.
fn beginning(
    alloc: Global,
    binding: &[BoundDomain],
    slots: &[Slot],
    number: usize,
) -> Result<Value, AllocError>
    ensures { IfOk result (λ v. value_seen v ≡ begins binding.now (slice_get slots.now number)) }
{
    match slots.get(number) {
        None => Value::unread(alloc),
        Some(slot) => {
            let private = domain_under(binding, slot.domain).is_private();
            Value::never_stored(alloc, private, slot.shape)
        }
    }
}

/// The slots of a function that is called under this binding: the arguments stand in the first ones.
pub fn enter(
    alloc: Global,
    binding: &[BoundDomain],
    slots: &[Slot],
    arguments: Vec<Value>,
) -> Result<Vec<Value>, AllocError>
    requires { length arguments.items ≤ length slots.now }
    ensures frame { IfOk result (λ frame. frame_seen frame.items ≡ entered binding.now slots.now (map value_seen arguments.items)) }
    ensures slots { IfOk result (λ frame. length frame.items ≡ length slots.now) }
{
    let mut frame = arguments;
    for number in frame.len()..slots.len() {
        frame.push(beginning(alloc, binding, slots, number)?)?;
    }
    Ok(frame)
}
