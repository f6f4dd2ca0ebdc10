// Public scalars, which are written into a register in place.
ghost use Rattle.std.specs.Prelude.{◌≡◌, ◌&&◌, [], ◌∷◌, IfOk, length, nat_eq, not};
ghost use Rattle.language_model.specs.Evaluation.{same_shape};
ghost use Rattle.language_model.specs.Values.{is_secret, plain};
ghost use Rattle.value_steps.specs.Views.{value_seen};
ghost use Rattle.code_machine.specs.Changes.{Puts};
ghost use Rattle.code_machine.specs.Standing.{IsThere};
ghost use Rattle.code_machine.specs.Views.{kept};

use crate::change::Change;
use crate::machine::Machine;
use bytecode::Register;
use program_trees::Shape;
use std::alloc::{AllocError, Global};
use value_steps::{Secrecy, Value, WrittenElement};

/// Whether a value is public, and has one word.
fn is_public_word(value: &Value) -> bool
    ensures { result ≡ (not (is_secret (value_seen value.now).secrecy) && nat_eq (length value.now.words.items) 1) }
{
    match value.secrecy {
        Secrecy::Plain => value.words.len() == 1,
        Secrecy::Private(_) => false,
    }
}

/// Whether a value has this shape, and one word.
fn is_one_word(value: &Value, shape: Shape) -> bool
    ensures { result ≡ (same_shape value.now.shape shape && nat_eq (length value.now.words.items) 1) }
{
    value.shape == shape && value.words.len() == 1
}

/// A public scalar.
fn scalar(alloc: Global, shape: Shape, word: u64) -> Result<Value, AllocError>
    ensures { IfOk result (λ value. value_seen value ≡ plain shape (word ∷ [])) }
{
    let words = vec![in alloc; word]?;
    Ok(Value::plain(shape, words))
}

/// The change that puts a public scalar into a register: its word is written in place where the register holds one word of this shape.
pub(crate) fn scalar_into(
    alloc: Global,
    machine: &Machine,
    to: Register,
    shape: Shape,
    word: u64,
) -> Result<Change, AllocError>
    requires { IsThere machine.now to }
    ensures { IfOk result (Puts machine.now to (plain shape (word ∷ []))) }
{
    if is_one_word(machine.register(to), shape) {
        let element = WrittenElement {
            index: 0,
            word,
            secrecy: Secrecy::Plain,
        };
        return Ok(Change::Element(to, element));
    }
    let value = scalar(alloc, shape, word)?;
    Ok(Change::Value(to, value))
}

/// The change that puts the value of a register into another one.
pub(crate) fn copy_into(
    alloc: Global,
    machine: &Machine,
    to: Register,
    source: Register,
) -> Result<Change, AllocError>
    requires to_there { IsThere machine.now to }
    requires source_there { IsThere machine.now source }
    ensures { IfOk result (Puts machine.now to (kept machine.now source)) }
{
    let value = machine.register(source);
    if is_public_word(value) {
        return scalar_into(alloc, machine, to, value.shape, value.seen_word());
    }
    let copy = value.copy(alloc)?;
    Ok(Change::Value(to, copy))
}
