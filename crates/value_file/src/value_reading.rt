// The value of an entry.
ghost use Rattle.std.specs.Prelude.{◌≡◌, codes, option_map, IfOk};
ghost use Rattle.serde_json.specs.Find.{as_bool};
ghost use Rattle.serde_json.specs.View.{view, items_view};
ghost use Rattle.value_file.specs.Values.{all_in, integer_in, number_in, value_of};

use crate::lists::{Bits, Words};
use crate::value::{DataType, Value};
use serde_json::Value as Json;
use std::alloc::{AllocError, Global};

/// The numbers of a list, if each is one below 2^64.
pub fn numbers(alloc: Global, list: &[Json]) -> Result<Option<Vec<u64>>, AllocError>
    ensures { IfOk result (λ found. option_map (λ v. v.items) found ≡ all_in number_in (items_view list.now)) }
{
    let mut numbers = Vec::new(alloc);
    for json in list {
        let Some(number) = json.as_u64() else {
            return Ok(None);
        };
        numbers.push(number)?;
    }
    Ok(Some(numbers))
}

/// The two's complement word of a number from -2^63 to 2^63 - 1.
fn integer(json: &Json) -> Option<u64>
    ensures { result ≡ integer_in (view json.now) }
{
    match json.as_i64() {
        Some(number) => Some(number.cast_unsigned()),
        None => None,
    }
}

/// The two's complement words of the numbers of a list, if each is one from -2^63 to 2^63 - 1.
fn integers(alloc: Global, list: &[Json]) -> Result<Option<Vec<u64>>, AllocError>
    ensures { IfOk result (λ found. option_map (λ v. v.items) found ≡ all_in integer_in (items_view list.now)) }
{
    let mut words = Vec::new(alloc);
    for json in list {
        let Some(word) = integer(json) else {
            return Ok(None);
        };
        words.push(word)?;
    }
    Ok(Some(words))
}

fn truths(alloc: Global, list: &[Json]) -> Result<Option<Vec<bool>>, AllocError>
    ensures { IfOk result (λ found. option_map (λ v. v.items) found ≡ all_in as_bool (items_view list.now)) }
{
    let mut truths = Vec::new(alloc);
    for json in list {
        let Some(truth) = json.as_bool() else {
            return Ok(None);
        };
        truths.push(truth)?;
    }
    Ok(Some(truths))
}

fn words(alloc: Global, json: &Json) -> Result<Option<Value>, AllocError>
    ensures { IfOk result (λ found. found ≡ value_of DataType.Uint64 (view json.now)) }
{
    if let Some(list) = json.as_array() {
        match numbers(alloc, list)? {
            Some(numbers) => Ok(Some(Value::Numbers(Words::new(numbers)))),
            None => Ok(None),
        }
    } else {
        match json.as_u64() {
            Some(number) => Ok(Some(Value::Number(number))),
            None => Ok(None),
        }
    }
}

fn signed_words(alloc: Global, json: &Json) -> Result<Option<Value>, AllocError>
    ensures { IfOk result (λ found. found ≡ value_of DataType.Int64 (view json.now)) }
{
    if let Some(list) = json.as_array() {
        match integers(alloc, list)? {
            Some(words) => Ok(Some(Value::Integers(Words::new(words)))),
            None => Ok(None),
        }
    } else {
        match integer(json) {
            Some(word) => Ok(Some(Value::Integer(word))),
            None => Ok(None),
        }
    }
}

fn bits(alloc: Global, json: &Json) -> Result<Option<Value>, AllocError>
    ensures { IfOk result (λ found. found ≡ value_of DataType.Bool (view json.now)) }
{
    if let Some(list) = json.as_array() {
        match truths(alloc, list)? {
            Some(truths) => Ok(Some(Value::Truths(Bits::new(truths)))),
            None => Ok(None),
        }
    } else {
        match json.as_bool() {
            Some(truth) => Ok(Some(Value::Truth(truth))),
            None => Ok(None),
        }
    }
}

/// The value of this type that the data is, if it is one.
pub fn value(alloc: Global, data_type: DataType, json: &Json) -> Result<Option<Value>, AllocError>
    ensures { IfOk result (λ found. found ≡ value_of data_type (view json.now)) }
{
    match data_type {
        DataType::Uint64 => words(alloc, json),
        DataType::Int64 => signed_words(alloc, json),
        DataType::Bool => bits(alloc, json),
    }
}
