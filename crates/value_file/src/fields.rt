// The fields of an entry.
ghost use Rattle.std.specs.Prelude.{◌≡◌, ◌++◌, ◌∷◌, [], Some, codes, not, map, option_and_then, IfOk, IfSome, IsTrue};
ghost use Rattle.std.specs.List.{list_any};
ghost use Rattle.std.specs.Str.{bytes_eq};
ghost use Rattle.serde_json.specs.View.{view};
ghost use Rattle.value_file.specs.Json.{text_in};
ghost use Rattle.value_file.specs.Input.{name_in, new_name, domain_of, data_type_of, head_of, value_in};
ghost use Rattle.value_file.specs.Reads.{Reads};
ghost use Rattle.value_file.specs.declared.read_err.ReadErr.TheVariants.{BadField};

use crate::json::text_field;
use crate::read_err::{Field, ReadErr};
use crate::value::{DataType, Domain, Value};
use crate::value_reading::value;
use indexmap::IndexSet;
use sc_text::Name;
use serde_json::Value as Json;
use std::alloc::{AllocError, Global};

/// The most elements that an entry may have.
pub const MAX_ELEMENTS: u64 = 65_536;

/// The refusal of a field of the entry at this place.
pub fn bad(place: u64, name: Field) -> ReadErr
    ensures { result ≡ BadField (Some place) name }
{
    ReadErr::BadField {
        entry: Some(place),
        name,
    }
}

/// Whether a name is new; it is remembered.
fn is_new<'v>(names: &mut IndexSet<&'v str>, name: &'v str) -> Result<bool, AllocError>
    ensures new { IfOk result (λ new. new ≡ not (list_any (bytes_eq name.now) (map (λ n. n.now) names.old.keys))) }
    ensures remembered { IfOk result (λ new. IsTrue new →
        map (λ n. n.now) names.new.keys ≡ map (λ n. n.now) names.old.keys ++ name.now ∷ []) }
{
    match names.insert(name) {
        Ok(new) => Ok(new),
        Err(_) => Err(AllocError),
    }
}

/// The name of an entry, if it is of good form and new; it is remembered.
#[tactic(auto, unfolding(crate::specs::Input::new_name))]
fn name<'v>(
    alloc: Global,
    names: &mut IndexSet<&'v str>,
    json: &'v Json,
) -> Result<Option<Name>, AllocError>
    ensures name { IfOk result (λ found. found ≡ name_in (map (λ n. n.now) names.old.keys) (view json.now)) }
    ensures new { IfOk result (λ found. IfSome found (λ name. new_name (map (λ n. n.now) names.old.keys) name ≡ Some name)) }
    ensures remembered { IfOk result (λ found. IfSome found (λ name.
        map (λ n. n.now) names.new.keys ≡ map (λ n. n.now) names.old.keys ++ name ∷ [])) }
{
    let Some(text) = text_field(json, "name") else {
        return Ok(None);
    };
    if is_new(names, text)? {
        Name::from_str(alloc, text)
    } else {
        Ok(None)
    }
}

/// The domain of an entry, if it is good.
#[tactic(auto, unfolding(crate::specs::Input::domain_of))]
fn domain(json: &Json) -> Option<Domain>
    ensures { result ≡ option_and_then domain_of (text_in (codes "domain") (view json.now)) }
{
    match text_field(json, "domain")? {
        "public" => Some(Domain::Public),
        "private" => Some(Domain::Private),
        _ => None,
    }
}

/// The data type of an entry, if it is good.
#[tactic(auto, unfolding(crate::specs::Input::data_type_of))]
fn data_type(json: &Json) -> Option<DataType>
    ensures { result ≡ option_and_then data_type_of (text_in (codes "type") (view json.now)) }
{
    match text_field(json, "type")? {
        "uint64" => Some(DataType::Uint64),
        "int64" => Some(DataType::Int64),
        "bool" => Some(DataType::Bool),
        _ => None,
    }
}

/// What an entry of each kind has: its name, who may know it, and its data type.
#[derive(Drop)]
pub struct EntryHead {
    pub name: Name,
    pub domain: Domain,
    pub data_type: DataType,
}

/// The name, the domain and the data type of the entry at this place, or the refusal of the first of them that is wrong. The name is
/// remembered.
pub fn entry_head<'v>(
    alloc: Global,
    place: u64,
    names: &mut IndexSet<&'v str>,
    json: &'v Json,
) -> Result<EntryHead, ReadErr>
    ensures reads { Reads (head_of place (map (λ n. n.now) names.old.keys) (view json.now)) result }
    ensures new { IfOk result (λ head. new_name (map (λ n. n.now) names.old.keys) head.name ≡ Some head.name) }
    ensures remembered { IfOk result (λ head.
        map (λ n. n.now) names.new.keys ≡ map (λ n. n.now) names.old.keys ++ head.name ∷ []) }
{
    let Some(name) = name(alloc, names, json)? else {
        return Err(bad(place, Field::Name));
    };
    let Some(domain) = domain(json) else {
        return Err(bad(place, Field::Domain));
    };
    let Some(data_type) = data_type(json) else {
        return Err(bad(place, Field::Type));
    };
    Ok(EntryHead {
        name,
        domain,
        data_type,
    })
}

/// The value of an entry of this type, if it is good.
pub fn value_field(
    alloc: Global,
    data_type: DataType,
    json: &Json,
) -> Result<Option<Value>, AllocError>
    ensures { IfOk result (λ found. found ≡ value_in data_type (view json.now)) }
{
    match json.get("value") {
        Some(json) => value(alloc, data_type, json),
        None => Ok(None),
    }
}
