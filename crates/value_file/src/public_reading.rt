// A public file.
ghost use Rattle.std.specs.Prelude.{◌≡◌, ◌++◌, ◌∷◌, [], map, IfOk, OnOk};
ghost use Rattle.serde_json.specs.View.{view, items_view};
ghost use Rattle.serde_json.specs.Find.{as_str};
ghost use Rattle.value_file.specs.Input.{IsEntry, entries_after};
ghost use Rattle.value_file.specs.PublicFile.{IsWritable, public_count, public_entry_of, public_name_of, public_value_of, read_public_of, shape_in};
ghost use Rattle.value_file.specs.PublicFile.{shape_from};
ghost use Rattle.value_file.specs.Reads.{Reads};

use crate::fields::{EntryHead, MAX_ELEMENTS, bad, entry_head, value_field};
use crate::json::{json, list_field};
use crate::public::{PublicEntry, PublicPart, PublicValue};
use crate::read_err::{Field, ReadErr};
use crate::value::{DataType, Domain, Shape};
use indexmap::IndexSet;
use serde_json::Value as Json;
use std::alloc::{AllocError, Global};

fn shape(json: &Json) -> Option<Shape>
    ensures { result ≡ shape_from (as_str (view json.now)) (view json.now) }
{
    match json.as_str() {
        Some("scalar") => Some(Shape::Scalar),
        Some(_) => None,
        None => Some(Shape::Array(json.as_u64()?)),
    }
}

/// The shape of an entry, if it is good.
pub fn shape_field(json: &Json) -> Option<Shape>
    ensures { result ≡ shape_in (view json.now) }
{
    shape(json.get("shape")?)
}

/// The value or the shape of the entry at this place.
fn public_value(
    alloc: Global,
    place: u64,
    domain: Domain,
    data_type: DataType,
    json: &Json,
) -> Result<PublicValue, ReadErr>
    ensures { Reads (public_value_of place domain data_type (view json.now)) result }
{
    match domain {
        Domain::Public => match value_field(alloc, data_type, json)? {
            Some(value) => Ok(PublicValue::Known(value)),
            None => Err(bad(place, Field::Value)),
        },
        Domain::Private => match shape_field(json) {
            Some(shape) => Ok(PublicValue::Hidden { data_type, shape }),
            None => Err(bad(place, Field::Shape)),
        },
    }
}

/// The entry at this place, whose name is remembered.
#[tactic(auto, unfolding(crate::specs::PublicFile::public_entry_of, crate::specs::Input::within_limit))]
fn entry<'v>(
    alloc: Global,
    place: u64,
    names: &mut IndexSet<&'v str>,
    json: &'v Json,
) -> Result<PublicEntry, ReadErr>
    ensures reads { Reads (public_entry_of place (map (λ n. n.now) names.old.keys) (view json.now)) result }
    ensures form { IfOk result (λ entry. IsEntry (map (λ n. n.now) names.old.keys) entry.name (public_count entry.value)) }
    ensures remembered { IfOk result (λ entry.
        map (λ n. n.now) names.new.keys ≡ map (λ n. n.now) names.old.keys ++ entry.name ∷ []) }
{
    let EntryHead {
        name,
        domain,
        data_type,
    } = entry_head(alloc, place, names, json)?;
    let value = public_value(alloc, place, domain, data_type, json)?;
    if value.count() > MAX_ELEMENTS {
        return Err(ReadErr::TooLong { entry: place });
    }
    Ok(PublicEntry { name, value })
}

/// One more entry, unless memory runs short.
fn add(entries: &mut Vec<PublicEntry>, entry: PublicEntry) -> Result<(), AllocError>
    ensures { OnOk result (entries.new.items ≡ entries.old.items ++ entry ∷ []) }
{
    entries.push(entry)?;
    Ok(())
}

/// The entries of a list.
fn entries(alloc: Global, list: &[Json]) -> Result<PublicPart, ReadErr>
    ensures reads { Reads (entries_after public_entry_of public_name_of [] (items_view list.now)) result }
    ensures form { IfOk result IsWritable }
{
    let mut names = IndexSet::new(alloc);
    let mut entries = Vec::new(alloc);
    for (place, json) in list.iter().enumerate() {
        add(&mut entries, entry(alloc, place as u64, &mut names, json)?)?;
    }
    Ok(PublicPart::new(entries))
}

/// Reads a public file, which is like an input file but that a private entry has `shape`, either `"scalar"` or the count
/// of its elements, in place of `value`.
///
/// `Syntax`, `BadField` and `TooLong` are as in `read`; `shape` is tested where `value` would be.
#[tactic(auto, unfolding(crate::specs::PublicFile::read_public_of, crate::specs::Input::inputs_in))]
pub fn read_public(alloc: Global, bytes: &[u8]) -> Result<PublicPart, ReadErr>
    ensures reads { Reads (read_public_of bytes.now) result }
    ensures form { IfOk result IsWritable }
{
    let Some(json) = json(alloc, bytes)? else {
        return Err(ReadErr::Syntax);
    };
    let Some(list) = list_field(&json, "inputs") else {
        return Err(ReadErr::BadField {
            entry: None,
            name: Field::Inputs,
        });
    };
    entries(alloc, list)
}
