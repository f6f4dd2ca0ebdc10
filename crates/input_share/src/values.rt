// The elements of a value as words.
ghost use Rattle.std.specs.Prelude.{◌≡◌, ◌≤◌, ◌<◌, ◌^◌, map, length, IfOk};
ghost use Rattle.value_file.specs.Values.{count_of, type_of};
ghost use Rattle.input_share.specs.Values.{bit_word, elements_of, shared_as, shared_size, shared_words};

use std::alloc::{AllocError, Global};
use value_file::{DataType, Value};

fn bit_word(bit: bool) -> u64
    ensures { result ≡ bit_word bit }
{
    if bit { 1 } else { 0 }
}

fn bit_words(alloc: Global, bits: &[bool]) -> Result<Vec<u64>, AllocError>
    ensures { IfOk result (λ words. words.items ≡ map bit_word bits.now) }
{
    let mut words = Vec::with_capacity(alloc, bits.len())?;
    for bit in bits {
        words.push(bit_word(*bit))?;
    }
    Ok(words)
}

/// The elements of a value, each as a word, a number with a sign by two's complement; a truth value is 0 or 1.
pub fn elements(alloc: Global, value: &Value) -> Result<Vec<u64>, AllocError>
    ensures { IfOk result (λ elements. elements.items ≡ elements_of value.now) }
{
    match value {
        Value::Number(word) | Value::Integer(word) => [*word].as_slice().to_vec(alloc),
        Value::Truth(bit) => [bit_word(*bit)].as_slice().to_vec(alloc),
        Value::Numbers(words) | Value::Integers(words) => words.as_slice().to_vec(alloc),
        Value::Truths(bits) => bit_words(alloc, bits.as_slice()),
    }
}

/// The count of a value's elements; a scalar is one.
pub fn count(value: &Value) -> usize
    ensures count { result ≡ count_of value.now }
    ensures small { result < 2 ^ 63 }
{
    match value {
        Value::Number(_) | Value::Integer(_) | Value::Truth(_) => 1,
        Value::Numbers(words) | Value::Integers(words) => words.as_slice().len(),
        Value::Truths(bits) => bits.as_slice().len(),
    }
}

// No memory holds more bits.
const MOST_BITS: usize = 4611686018427387904;

/// How many words share so many elements: a word for each number, and one for each 64 truth values or fewer.
pub fn shared_size(data_type: DataType, count: u64) -> u64
    ensures size { result ≡ shared_size data_type count }
    ensures fewer { result ≤ count }
{
    match data_type {
        DataType::Uint64 | DataType::Int64 => count,
        DataType::Bool => bit_words::words_for(count),
    }
}

/// Elements as they are shared: numbers one by one, truth values (0 or 1) packed. Fails where memory runs out.
pub fn shared_as(
    alloc: Global,
    data_type: DataType,
    elements: Vec<u64>,
) -> Result<Vec<u64>, AllocError>
    ensures { IfOk result (λ words. words.items ≡ shared_as data_type elements.items) }
{
    match data_type {
        DataType::Uint64 | DataType::Int64 => Ok(elements),
        DataType::Bool => {
            if elements.len() > MOST_BITS {
                return Err(AllocError);
            }
            bit_words::packed(alloc, &elements)
        }
    }
}

/// The words in which a value is shared.
pub(crate) fn shared_words(alloc: Global, value: &Value) -> Result<Vec<u64>, AllocError>
    ensures { IfOk result (λ words. words.items ≡ shared_words value.now) }
{
    let elements = elements(alloc, value)?;
    shared_as(alloc, value.data_type(), elements)
}
