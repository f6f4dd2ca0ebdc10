// Arrays and their elements.
ghost use Rattle.std.specs.Prelude.{◌≡◌, ◌≤◌, ◌+◌, ◌++◌, ◌<◌, IfOk};
ghost use Rattle.language_model.specs.Operations.{concatenated, element_of_array, with_element, filled};
ghost use Rattle.language_model.specs.Values.{size};
ghost use Rattle.value_steps.specs.Steps.{Does, itself};
ghost use Rattle.value_steps.specs.Views.{stage_seen, value_seen, written};

use crate::element_gates::{SizedOperand, element_gate, joined_gate, repeated_gate, stored_gate};
use crate::gating::{gate, number_of};
use crate::halt::Halt;
use crate::stage::Stage;
use crate::steps::{charge, charged_array, test_at};
use crate::value::{Secrecy, Value};
use program_trees::Shape;
use sc_text::TrapKind;
use std::alloc::{AllocError, Global};

/// Words with more after them.
fn extended(mut words: Vec<u64>, more: &[u64]) -> Result<Vec<u64>, AllocError>
    ensures { IfOk result (λ all. all.items ≡ words.items ++ more.now) }
{
    words.extend_from_slice(more)?;
    Ok(words)
}

/// An array, and the elements of another after it; both are private or both are public.
pub fn concatenated(
    alloc: Global,
    stage: &mut Stage<'_>,
    line: u32,
    left: Value,
    right: &Value,
) -> Result<Value, Halt>
    ensures step { Does value_seen (concatenated line (value_seen left) (value_seen right.now)) (stage_seen stage.old) result (stage_seen stage.new) }
    ensures spends { stage.new.left ≤ stage.old.left }
{
    charged_array(stage, line, left.size() + right.size())?;
    let shape = left.shape;
    match (left.secrecy, right.secrecy) {
        (Secrecy::Plain, Secrecy::Plain) => {
            let words = extended(left.into_words(), &right.words)?;
            Ok(Value::plain(shape, words))
        }
        (Secrecy::Private(_), _) | (Secrecy::Plain, Secrecy::Private(_)) => {
            let first = number_of(alloc, stage, &left)?;
            let second = number_of(alloc, stage, right)?;
            let joined = joined_gate(
                shape.element,
                SizedOperand {
                    number: first,
                    size: left.size(),
                },
                SizedOperand {
                    number: second,
                    size: right.size(),
                },
            );
            let number = gate(stage, joined)?;
            let words = extended(left.into_words(), &right.words)?;
            Ok(Value::hidden(shape, number, words))
        }
    }
}

/// The element of an array at an index.
pub fn element_of_array(
    alloc: Global,
    stage: &mut Stage<'_>,
    line: u32,
    array: &Value,
    index: &Value,
) -> Result<Value, Halt>
    ensures step { Does value_seen (element_of_array line (value_seen array.now) (value_seen index.now)) (stage_seen stage.old) result (stage_seen stage.new) }
    ensures spends { stage.new.left ≤ stage.old.left }
{
    charge(stage, 1)?;
    let at = index.seen_word();
    test_at(stage, at < array.size(), TrapKind::Index, line)?;
    let shape = Shape {
        element: array.shape.element,
        array: false,
    };
    let words = vec![in alloc; array.words[at as usize]]?;
    match array.secrecy {
        Secrecy::Plain => Ok(Value::plain(shape, words)),
        Secrecy::Private(_) => {
            let operand = number_of(alloc, stage, array)?;
            let number = gate(stage, element_gate(shape.element, operand, at))?;
            Ok(Value::hidden(shape, number, words))
        }
    }
}

/// What becomes of an array by an element that is written: the word at an index, and who may see the array then.
#[derive(Clone, Copy)]
pub struct WrittenElement {
    /// Where it stands in the array, from 0.
    pub index: u64,
    /// Its word; of a private element the word that who takes the steps has in its place.
    pub word: u64,
    /// Who may see the array, with the number of the value that it has then.
    pub secrecy: Secrecy,
}

impl WrittenElement {
    /// Writes the element into the array, in place.
    pub fn write_to(self, array: &mut Value)
        requires { self.index < size (value_seen array.old) }
        ensures { value_seen array.new ≡ written (value_seen array.old) self }
    {
        array.words[self.index as usize] = self.word;
        array.secrecy = self.secrecy;
    }
}

/// What becomes of an array by an element that is written at an index. Nothing of the array is copied.
pub fn element_written(
    alloc: Global,
    stage: &mut Stage<'_>,
    line: u32,
    array: &Value,
    index: &Value,
    element: &Value,
) -> Result<WrittenElement, Halt>
    ensures step { Does (written (value_seen array.now)) (with_element line (value_seen array.now) (value_seen index.now) (value_seen element.now))
        (stage_seen stage.old) result (stage_seen stage.new) }
    ensures within { IfOk result (λ e. e.index < size (value_seen array.now)) }
    ensures spends { stage.new.left ≤ stage.old.left }
{
    charge(stage, 1)?;
    let place = index.seen_word();
    test_at(stage, place < array.size(), TrapKind::Index, line)?;
    match array.secrecy {
        Secrecy::Plain => Ok(WrittenElement {
            index: place,
            word: element.seen_word(),
            secrecy: Secrecy::Plain,
        }),
        Secrecy::Private(_) => {
            let operand = number_of(alloc, stage, array)?;
            let element_number = number_of(alloc, stage, element)?;
            let stored = stored_gate(array.shape.element, operand, place, element_number);
            let number = gate(stage, stored)?;
            Ok(WrittenElement {
                index: place,
                word: element.word(),
                secrecy: Secrecy::Private(Some(number)),
            })
        }
    }
}

/// An array with its element at an index changed. The array is written in place.
pub fn with_element(
    stage: &mut Stage<'_>,
    line: u32,
    mut array: Value,
    index: &Value,
    element: &Value,
) -> Result<Value, Halt>
    ensures step { Does value_seen (with_element line (value_seen array) (value_seen index.now) (value_seen element.now))
        (stage_seen stage.old) result (stage_seen stage.new) }
    ensures spends { stage.new.left ≤ stage.old.left }
{
    let alloc = *array.words.allocator();
    let written = element_written(alloc, stage, line, &array, index, element)?;
    written.write_to(&mut array);
    Ok(array)
}

/// An array of so many elements that all are this one.
pub fn filled(
    alloc: Global,
    stage: &mut Stage<'_>,
    line: u32,
    size: &Value,
    element: &Value,
) -> Result<Value, Halt>
    ensures step { Does value_seen (filled line (value_seen size.now) (value_seen element.now)) (stage_seen stage.old) result (stage_seen stage.new) }
    ensures spends { stage.new.left ≤ stage.old.left }
{
    let count = size.seen_word();
    charged_array(stage, line, count)?;
    let shape = Shape {
        element: element.shape.element,
        array: true,
    };
    let words = vec![in alloc; element.word(); count as usize]?;
    match element.secrecy {
        Secrecy::Plain => Ok(Value::plain(shape, words)),
        Secrecy::Private(_) => {
            let operand = number_of(alloc, stage, element)?;
            let number = gate(stage, repeated_gate(shape.element, operand, count))?;
            Ok(Value::hidden(shape, number, words))
        }
    }
}
