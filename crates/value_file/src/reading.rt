// An input file.
ghost use Rattle.std.specs.Prelude.{◌≡◌, ◌++◌, ◌∷◌, [], map, IfOk, OnOk};
ghost use Rattle.serde_json.specs.View.{view, items_view};
ghost use Rattle.value_file.specs.Input.{AreInputs, IsEntry, entry_of, entries_after, name_of, read_of};
ghost use Rattle.value_file.specs.Values.{count_of};
ghost use Rattle.value_file.specs.Reads.{Reads};

use crate::fields::{EntryHead, MAX_ELEMENTS, bad, entry_head, value_field};
use crate::inputs::{Entry, Inputs};
use crate::json::{json, list_field};
use crate::read_err::{Field, ReadErr};
use indexmap::IndexSet;
use serde_json::Value as Json;
use std::alloc::{AllocError, Global};

/// The entry at this place, whose name is remembered.
#[tactic(auto, unfolding(crate::specs::Input::entry_of, crate::specs::Input::within_limit))]
fn entry<'v>(
    alloc: Global,
    place: u64,
    names: &mut IndexSet<&'v str>,
    json: &'v Json,
) -> Result<Entry, ReadErr>
    ensures reads { Reads (entry_of place (map (λ n. n.now) names.old.keys) (view json.now)) result }
    ensures form { IfOk result (λ entry. IsEntry (map (λ n. n.now) names.old.keys) entry.name (count_of entry.value)) }
    ensures remembered { IfOk result (λ entry.
        map (λ n. n.now) names.new.keys ≡ map (λ n. n.now) names.old.keys ++ entry.name ∷ []) }
{
    let EntryHead {
        name,
        domain,
        data_type,
    } = entry_head(alloc, place, names, json)?;
    let Some(value) = value_field(alloc, data_type, json)? else {
        return Err(bad(place, Field::Value));
    };
    if value.count() > MAX_ELEMENTS {
        return Err(ReadErr::TooLong { entry: place });
    }
    Ok(Entry {
        name,
        domain,
        value,
    })
}

/// One more entry, unless memory runs short.
fn add(entries: &mut Vec<Entry>, entry: Entry) -> Result<(), AllocError>
    ensures { OnOk result (entries.new.items ≡ entries.old.items ++ entry ∷ []) }
{
    entries.push(entry)?;
    Ok(())
}

/// The entries of a list.
fn entries(alloc: Global, list: &[Json]) -> Result<Inputs, ReadErr>
    ensures reads { Reads (entries_after entry_of name_of [] (items_view list.now)) result }
    ensures form { IfOk result AreInputs }
{
    let mut names = IndexSet::new(alloc);
    let mut entries = Vec::new(alloc);
    for (place, json) in list.iter().enumerate() {
        add(&mut entries, entry(alloc, place as u64, &mut names, json)?)?;
    }
    Ok(Inputs::new(entries))
}

/// Reads an input file: a JSON object whose `inputs` is an array of objects with `name` (1 to 64 ASCII letters,
/// digits and `_`, none twice), `domain` (`"public"` or `"private"`), `type` (`"uint64"`, `"int64"` or `"bool"`) and `value`
/// (a number below 2^64, a number from -2^63 to 2^63 - 1, or a truth value, or an array of these). Other fields are ignored.
///
/// `Syntax` is for bytes that serde_json doesn't read. `BadField` is for the first field that is missing or wrong, entry
/// by entry, in an entry in the order above, `TooLong` for an entry of more than 65,536 elements whose fields are good.
#[tactic(auto, unfolding(crate::specs::Input::read_of, crate::specs::Input::inputs_in))]
pub fn read(alloc: Global, bytes: &[u8]) -> Result<Inputs, ReadErr>
    ensures reads { Reads (read_of bytes.now) result }
    ensures form { IfOk result AreInputs }
{
    let Some(json) = json(alloc, bytes)? else {
        return Err(ReadErr::Syntax);
    };
    let Some(list) = list_field(&json, "inputs") else {
        return Err(ReadErr::BadField {
            entry: None,
            name: Field::Inputs,
        });
    };
    entries(alloc, list)
}
