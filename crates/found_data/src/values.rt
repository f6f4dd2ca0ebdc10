// The value of an input, of the sums of its shares.
ghost use Rattle.std.specs.Prelude.{◌≡◌, ◌==◌, map, get_or, IfOk};
ghost use Rattle.found_inputs.specs.Found.{elements_in, found_value, value_of};
ghost use Rattle.found_inputs.specs.Sums.{entry_of};

use crate::sums::sums;
use bit_words::unpacked;
use std::alloc::{AllocError, Global};
use value_file::{Bits, DataType, Domain, Entry, PublicEntry, PublicValue, Shape, Value, Words};

/// The first word; 0 where there is none.
fn first(words: &[u64]) -> u64
    ensures { result ≡ get_or words.now 0 0 }
{
    if words.is_empty() { 0 } else { words[0] }
}

/// The truth values of elements: true where the element is 1.
fn truths(alloc: Global, words: &[u64]) -> Result<Vec<bool>, AllocError>
    ensures { IfOk result (λ truths. truths.items ≡ map (λ w. w == 1) words.now) }
{
    let mut truths = Vec::with_capacity(alloc, words.len())?;
    for word in words {
        truths.push(*word == 1)?;
    }
    Ok(truths)
}

/// The elements that words hold: so many truth values, or a number in each word.
fn elements_in(
    alloc: Global,
    data_type: DataType,
    count: u64,
    words: Vec<u64>,
) -> Result<Vec<u64>, AllocError>
    ensures { IfOk result (λ elements. elements.items ≡ elements_in data_type count words.items) }
{
    match data_type {
        DataType::Uint64 | DataType::Int64 => Ok(words),
        DataType::Bool => unpacked(alloc, &words, count as usize),
    }
}

/// The value of this type and shape that has these elements.
fn value_of(
    alloc: Global,
    data_type: DataType,
    shape: Shape,
    elements: Vec<u64>,
) -> Result<Value, AllocError>
    ensures { IfOk result (λ value. value ≡ value_of data_type shape elements.items) }
{
    match (data_type, shape) {
        (DataType::Uint64, Shape::Scalar) => Ok(Value::Number(first(&elements))),
        (DataType::Uint64, Shape::Array(_)) => Ok(Value::Numbers(Words::new(elements))),
        (DataType::Int64, Shape::Scalar) => Ok(Value::Integer(first(&elements))),
        (DataType::Int64, Shape::Array(_)) => Ok(Value::Integers(Words::new(elements))),
        (DataType::Bool, Shape::Scalar) => Ok(Value::Truth(first(&elements) == 1)),
        (DataType::Bool, Shape::Array(_)) => {
            Ok(Value::Truths(Bits::new(truths(alloc, &elements)?)))
        }
    }
}

/// The value of this type and shape that has these words.
fn found_value(
    alloc: Global,
    data_type: DataType,
    shape: Shape,
    words: Vec<u64>,
) -> Result<Value, AllocError>
    ensures { IfOk result (λ value. value ≡ found_value data_type shape words.items) }
{
    let elements = elements_in(alloc, data_type, shape.count(), words)?;
    value_of(alloc, data_type, shape, elements)
}

/// The input of which everybody knows this, and of which three miners have these shares, if it is hidden.
pub(crate) fn entry_of(
    alloc: Global,
    entry: &PublicEntry,
    one: &[u64],
    two: &[u64],
    three: &[u64],
) -> Result<Entry, AllocError>
    ensures { IfOk result (λ found. found ≡ entry_of entry.now.name entry.now.value one.now two.now three.now) }
{
    let name = entry.name.copy(alloc)?;
    match &entry.value {
        PublicValue::Known(value) => Ok(Entry {
            name,
            domain: Domain::Public,
            value: value.copy(alloc)?,
        }),
        PublicValue::Hidden { data_type, shape } => {
            let sums = sums(alloc, *data_type, one, two, three)?;
            Ok(Entry {
                name,
                domain: Domain::Private,
                value: found_value(alloc, *data_type, *shape, sums)?,
            })
        }
    }
}
