// The file of a public part.
ghost use Rattle.std.specs.Prelude.{◌≡◌, List, ℕ, Bool, codes, map, Ok, IfOk, OnOk};
ghost use Rattle.serde_json.specs.Data.{boolean, array, string, put as with_member};
ghost use Rattle.serde_json.specs.View.{view, items_view, items_of, members_view};
ghost use Rattle.value_file.specs.PublicFile.{read_public_of, IsWritable};
ghost use Rattle.value_file.specs.Public.{number_data, integer_data, value_data, shape_data, entry_data, entry_data_of, part_data, part_bytes, type_data};
ghost use Rattle.value_file.specs.Values.{type_of};
ghost use Rattle.value_file.specs.declared.public.PublicValue.TheVariants.{Known, Hidden};

use crate::public::{PublicEntry, PublicPart, PublicValue};
use crate::value::{DataType, Shape, Value};
use crate::words::see_entries;
use serde_json::{Map, Value as Json, json, put};
use std::alloc::{AllocError, Global};

/// Numbers as JSON, in order.
pub fn numbers_json(alloc: Global, numbers: &[u64]) -> Result<Vec<Json>, AllocError>
    ensures { IfOk result (λ list. items_view list.items ≡ items_of (map number_data numbers.now)) }
{
    let mut list = Vec::new(alloc);
    for number in numbers {
        list.push(Json::from(*number))?;
    }
    Ok(list)
}

/// The number with a sign of which this is the two's complement word, as JSON.
fn integer_json(word: u64) -> Json
    ensures { view result ≡ integer_data word }
{
    Json::from(word.cast_signed())
}

/// Numbers with a sign as JSON, in order, each given by its two's complement word.
fn integers_json(alloc: Global, words: &[u64]) -> Result<Vec<Json>, AllocError>
    ensures { IfOk result (λ list. items_view list.items ≡ items_of (map integer_data words.now)) }
{
    let mut list = Vec::new(alloc);
    for word in words {
        list.push(integer_json(*word))?;
    }
    Ok(list)
}

fn truths(alloc: Global, truths: &[bool]) -> Result<Vec<Json>, AllocError>
    ensures { IfOk result (λ list. items_view list.items ≡ items_of (map boolean truths.now)) }
{
    let mut list = Vec::new(alloc);
    for truth in truths {
        list.push(Json::Bool(*truth))?;
    }
    Ok(list)
}

/// A value as JSON.
pub fn value_json(alloc: Global, value: &Value) -> Result<Json, AllocError>
    ensures { IfOk result (λ json. view json ≡ value_data value.now) }
{
    match value {
        Value::Number(number) => Ok(Json::from(*number)),
        Value::Integer(word) => Ok(integer_json(*word)),
        Value::Truth(truth) => Ok(Json::Bool(*truth)),
        Value::Numbers(words) => Ok(Json::Array(numbers_json(alloc, words.as_slice())?)),
        Value::Integers(words) => Ok(Json::Array(integers_json(alloc, words.as_slice())?)),
        Value::Truths(bits) => Ok(Json::Array(truths(alloc, bits.as_slice())?)),
    }
}

/// The word for a data type.
pub fn type_word(data_type: DataType) -> &'static str
    ensures { string result.now ≡ type_data data_type }
{
    match data_type {
        DataType::Uint64 => "uint64",
        DataType::Int64 => "int64",
        DataType::Bool => "bool",
    }
}

/// The name of a data type as JSON.
pub fn type_json(alloc: Global, data_type: DataType) -> Result<Json, AllocError>
    ensures { IfOk result (λ json. view json ≡ type_data data_type) }
{
    json!(in alloc; type_word(data_type))
}

/// A shape as JSON: a scalar's is a word, an array's the count of its elements.
pub fn shape_json(alloc: Global, shape: Shape) -> Result<Json, AllocError>
    ensures { IfOk result (λ json. view json ≡ shape_data shape) }
{
    match shape {
        Shape::Scalar => json!(in alloc; "scalar"),
        Shape::Array(count) => Ok(Json::from(count)),
    }
}

/// Puts a text among the members of an object.
pub fn put_text(
    members: &mut Map<String, Json>,
    alloc: Global,
    key: &str,
    text: &str,
) -> Result<(), AllocError>
    ensures { OnOk result (members_view members.new.entries
        ≡ with_member key.now (string text.now) (members_view members.old.entries)) }
{
    let text = String::from_str(alloc, text)?;
    put(members, alloc, key, Json::String(text))
}

// The members of a public input's entry.
fn put_public(
    members: &mut Map<String, Json>,
    alloc: Global,
    name: &str,
    value: &Value,
) -> Result<(), AllocError>
    ensures { OnOk result (members_view members.new.entries
        ≡ with_member (codes "value") (value_data value.now)
        (with_member (codes "type") (type_data (type_of value.now))
        (with_member (codes "name") (string name.now)
        (with_member (codes "domain") (string (codes "public")) (members_view members.old.entries))))) }
{
    put_text(members, alloc, "domain", "public")?;
    put_text(members, alloc, "name", name)?;
    put_text(members, alloc, "type", type_word(value.data_type()))?;
    let value = value_json(alloc, value)?;
    put(members, alloc, "value", value)
}

/// The entry of a public input as JSON.
pub fn public_json(alloc: Global, name: &str, value: &Value) -> Result<Json, AllocError>
    ensures { IfOk result (λ json. view json ≡ entry_data_of name.now (Known value.now)) }
{
    let mut members = Map::new(alloc);
    put_public(&mut members, alloc, name, value)?;
    Ok(Json::Object(members))
}

// The members of a private input's entry.
fn put_hidden(
    members: &mut Map<String, Json>,
    alloc: Global,
    name: &str,
    data_type: DataType,
    shape: Shape,
) -> Result<(), AllocError>
    ensures { OnOk result (members_view members.new.entries
        ≡ with_member (codes "type") (type_data data_type)
        (with_member (codes "shape") (shape_data shape)
        (with_member (codes "name") (string name.now)
        (with_member (codes "domain") (string (codes "private")) (members_view members.old.entries))))) }
{
    put_text(members, alloc, "domain", "private")?;
    put_text(members, alloc, "name", name)?;
    let shape = shape_json(alloc, shape)?;
    put(members, alloc, "shape", shape)?;
    put_text(members, alloc, "type", type_word(data_type))
}

// The entry of a private input as JSON.
fn hidden_json(
    alloc: Global,
    name: &str,
    data_type: DataType,
    shape: Shape,
) -> Result<Json, AllocError>
    ensures { IfOk result (λ json. view json ≡ entry_data_of name.now (Hidden data_type shape)) }
{
    let mut members = Map::new(alloc);
    put_hidden(&mut members, alloc, name, data_type, shape)?;
    Ok(Json::Object(members))
}

fn entry_json(alloc: Global, entry: &PublicEntry) -> Result<Json, AllocError>
    ensures { IfOk result (λ json. view json ≡ entry_data entry.now) }
{
    let name = entry.name.as_str();
    match &entry.value {
        PublicValue::Known(value) => public_json(alloc, name, value),
        PublicValue::Hidden { data_type, shape } => hidden_json(alloc, name, *data_type, *shape),
    }
}

fn entries_json(alloc: Global, entries: &[PublicEntry]) -> Result<Vec<Json>, AllocError>
    ensures { IfOk result (λ list. items_view list.items ≡ items_of (map entry_data entries.now)) }
{
    let mut list = Vec::new(alloc);
    for entry in entries {
        list.push(entry_json(alloc, entry)?)?;
    }
    Ok(list)
}

fn part_json(alloc: Global, part: &PublicPart) -> Result<Json, AllocError>
    ensures { IfOk result (λ json. view json ≡ part_data part.now) }
{
    let mut members = Map::new(alloc);
    let list = entries_json(alloc, part.entries())?;
    put(&mut members, alloc, "inputs", Json::Array(list))?;
    Ok(Json::Object(members))
}

/// The file of a public part: compact JSON with its keys in byte order and no newline. `read_public` reads it as this part
/// if no name stands twice and no entry has more than 65,536 elements.
pub fn write_public(alloc: Global, part: &PublicPart) -> Result<Vec<u8>, AllocError>
    ensures bytes { IfOk result (λ file. file.items ≡ part_bytes part.now) }
    ensures read_again { IfOk result (λ file. IsWritable part.now → read_public_of file.items ≡ Ok part.now) }
{
    see_entries(part.entries());
    let json = part_json(alloc, part)?;
    Ok(json.to_string(alloc)?.into_bytes())
}
