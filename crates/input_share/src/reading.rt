// A share file as it is read.
ghost use Rattle.std.specs.Prelude.{◌≡◌, ◌++◌, ◌∷◌, [], None, length, map, option_map, IfOk, IfSome, OnOk};
ghost use Rattle.serde_json.specs.View.{view, items_view};
ghost use Rattle.value_file.specs.Input.{entries_after, IsEntry};
ghost use Rattle.value_file.specs.Values.{size_of};
ghost use Rattle.value_file.specs.Reads.{Reads};
ghost use Rattle.value_file.specs.declared.read_err.ReadErr.TheVariants.{BadField};
ghost use Rattle.input_share.specs.Reading.{file_in, lens_in, miner_in, miner_of, numbers_in, of_length, part_of, part_count, private_part_of};
ghost use Rattle.input_share.specs.Reading.{read_share_of, share_count_of, share_entry_of, share_in, share_name_of, AreWritable, IsWhole};
ghost use Rattle.input_share.specs.Reading.{IsWholePart};
ghost use Rattle.input_share.specs.Values.{shared_size};

use crate::entry::{Part, ShareEntry, Shared};
use crate::share_file::ShareFile;
use crate::values::shared_size;
use indexmap::IndexSet;
use proto_core::Number;
use serde_json::Value as Json;
use std::alloc::{AllocError, Global};
use std::marker::Model;
use value_file::fields::{EntryHead, MAX_ELEMENTS, bad, entry_head, value_field};
use value_file::json::{json, list_field};
use value_file::{DataType, Domain, Field, ReadErr, Shape, Words, numbers, shape_field};

/// The entries that were read. Clauses see their list.
#[derive(Drop)]
struct EntryList {
    entries: Vec<ShareEntry>,
}

impl Model for EntryList {
    ghost use Rattle.std.specs.Prelude.{List};
    ghost use Rattle.input_share.specs.declared.entry.ShareEntry.{ShareEntry};

    ghost Value = { List ShareEntry };

    ghost view = { λ read. read.entries.items };
}

impl EntryList {
    fn new(entries: Vec<ShareEntry>) -> Self
        ensures { result ≡ entries.items }
    {
        EntryList { entries }
    }

    fn into_vec(self) -> Vec<ShareEntry>
        ensures { result.items ≡ self }
    {
        self.entries
    }
}

/// The refusal of a field at top.
fn bad_top(name: Field) -> ReadErr
    ensures { result ≡ BadField None name }
{
    ReadErr::BadField { entry: None, name }
}

/// The numbers of a list in a field.
fn numbers_field(alloc: Global, field: &str, json: &Json) -> Result<Option<Vec<u64>>, AllocError>
    ensures { IfOk result (λ found. option_map (λ v. v.items) found ≡ numbers_in field.now (view json.now)) }
{
    match list_field(json, field) {
        Some(list) => numbers(alloc, list),
        None => Ok(None),
    }
}

/// The share words of an entry of this shape, if there are as many as it says.
fn share_field(
    alloc: Global,
    data_type: DataType,
    shape: Shape,
    json: &Json,
) -> Result<Option<Vec<u64>>, AllocError>
    ensures share { IfOk result (λ found. option_map (λ v. v.items) found ≡ share_in data_type shape (view json.now)) }
    ensures whole { IfOk result (λ found. IfSome found (λ v. length v.items ≡ shared_size data_type (size_of shape))) }
{
    let Some(words) = numbers_field(alloc, "share", json)? else {
        return Ok(None);
    };
    if words.len() as u64 == shared_size(data_type, shape.count()) {
        Ok(Some(words))
    } else {
        Ok(None)
    }
}

/// The shape and the share of the private entry at this place.
fn private_part(
    alloc: Global,
    place: u64,
    data_type: DataType,
    json: &Json,
) -> Result<Part, ReadErr>
    ensures reads { Reads (private_part_of place data_type (view json.now)) result }
    ensures whole { IfOk result IsWholePart }
{
    let Some(shape) = shape_field(json) else {
        return Err(bad(place, Field::Shape));
    };
    let Some(words) = share_field(alloc, data_type, shape, json)? else {
        return Err(bad(place, Field::Share));
    };
    Ok(Part::Private(Shared {
        data_type,
        shape,
        words: Words::new(words),
    }))
}

/// The value or the share of the entry at this place.
fn part(
    alloc: Global,
    place: u64,
    domain: Domain,
    data_type: DataType,
    json: &Json,
) -> Result<Part, ReadErr>
    ensures reads { Reads (part_of place domain data_type (view json.now)) result }
    ensures whole { IfOk result IsWholePart }
{
    match domain {
        Domain::Public => match value_field(alloc, data_type, json)? {
            Some(value) => Ok(Part::Public(value)),
            None => Err(bad(place, Field::Value)),
        },
        Domain::Private => private_part(alloc, place, data_type, json),
    }
}

/// The count of a part's elements.
fn part_count(part: &Part) -> u64
    ensures { result ≡ part_count part.now }
{
    match part {
        Part::Public(value) => value.count(),
        Part::Private(shared) => shared.shape.count(),
    }
}

/// The entry at this place, whose name is remembered.
#[tactic(auto, unfolding(crate::specs::Reading::share_entry_of, value_file::specs::Input::within_limit))]
fn entry<'v>(
    alloc: Global,
    place: u64,
    names: &mut IndexSet<&'v str>,
    json: &'v Json,
) -> Result<ShareEntry, ReadErr>
    ensures reads { Reads (share_entry_of place (map (λ n. n.now) names.old.keys) (view json.now)) result }
    ensures form { IfOk result (λ entry. IsEntry (map (λ n. n.now) names.old.keys) entry.name (share_count_of entry)) }
    ensures whole { IfOk result IsWhole }
    ensures remembered { IfOk result (λ entry.
        map (λ n. n.now) names.new.keys ≡ map (λ n. n.now) names.old.keys ++ entry.name ∷ []) }
{
    let EntryHead {
        name,
        domain,
        data_type,
    } = entry_head(alloc, place, names, json)?;
    let part = part(alloc, place, domain, data_type, json)?;
    if part_count(&part) > MAX_ELEMENTS {
        return Err(ReadErr::TooLong { entry: place });
    }
    Ok(ShareEntry { name, part })
}

/// One more entry, unless memory runs short.
fn add(entries: &mut Vec<ShareEntry>, entry: ShareEntry) -> Result<(), AllocError>
    ensures { OnOk result (entries.new.items ≡ entries.old.items ++ entry ∷ []) }
{
    entries.push(entry)?;
    Ok(())
}

/// The entries of a list.
fn entries(alloc: Global, list: &[Json]) -> Result<EntryList, ReadErr>
    ensures reads { Reads (entries_after share_entry_of share_name_of [] (items_view list.now)) result }
    ensures form { IfOk result AreWritable }
{
    let mut names = IndexSet::new(alloc);
    let mut entries = Vec::new(alloc);
    for (place, json) in list.iter().enumerate() {
        add(&mut entries, entry(alloc, place as u64, &mut names, json)?)?;
    }
    Ok(EntryList::new(entries))
}

/// Four numbers, if there are four.
fn four(words: &[u64]) -> Option<[u64; 4]>
    ensures { result ≡ of_length 4 words.now }
{
    if words.len() == 4 {
        Some([words[0], words[1], words[2], words[3]])
    } else {
        None
    }
}

/// The lengths of the tapes.
fn lens_field(alloc: Global, json: &Json) -> Result<Option<[u64; 4]>, AllocError>
    ensures { IfOk result (λ found. found ≡ lens_in (view json.now)) }
{
    match numbers_field(alloc, "lens", json)? {
        Some(words) => Ok(four(&words)),
        None => Ok(None),
    }
}

fn miner_of(number: u64) -> Option<Number>
    ensures { result ≡ miner_of number }
{
    match number {
        1 => Some(Number::One),
        2 => Some(Number::Two),
        3 => Some(Number::Three),
        _ => None,
    }
}

/// The miner, if it is the one that is wanted.
fn miner_field(wanted: u8, json: &Json) -> Option<Number>
    ensures { result ≡ miner_in wanted (view json.now) }
{
    let number = json.get("miner")?.as_u64()?;
    if number == u64::from(wanted) {
        miner_of(number)
    } else {
        None
    }
}

/// The share file of an object.
#[tactic(auto, unfolding(crate::specs::Reading::file_in, value_file::specs::Input::inputs_in))]
fn file(alloc: Global, miner: u8, json: &Json) -> Result<ShareFile, ReadErr>
    ensures reads { Reads (file_in miner (view json.now)) result }
    ensures form { IfOk result (λ file. AreWritable file.entries) }
{
    let Some(list) = list_field(json, "inputs") else {
        return Err(bad_top(Field::Inputs));
    };
    let entries = entries(alloc, list)?;
    let Some(lens) = lens_field(alloc, json)? else {
        return Err(bad_top(Field::Lens));
    };
    let Some(miner) = miner_field(miner, json) else {
        return Err(bad_top(Field::Miner));
    };
    Ok(ShareFile::new(entries.into_vec(), lens, miner))
}

/// Reads the share file of this miner, which is like an input file but that a private entry has `shape` (`"scalar"` or the
/// count of its elements) and then `share` (a list of words: one for each number, one for each 64 truth values or fewer) in
/// place of `value`, and that `lens` (the lengths of the four tapes) and `miner` (1, 2 or 3) stand beside `inputs`. Bits of a
/// share's last word that stand for no truth value are taken as they are.
///
/// `Syntax`, `BadField` and `TooLong` are as in `value_file::read`; the fields at top are tested after the entries, first
/// `lens` and then `miner`, which is bad as well where it isn't the miner given.
#[tactic(auto, unfolding(crate::specs::Reading::read_share_of))]
pub fn read_share(alloc: Global, bytes: &[u8], miner: u8) -> Result<ShareFile, ReadErr>
    ensures reads { Reads (read_share_of miner bytes.now) result }
    ensures form { IfOk result (λ file. AreWritable file.entries) }
{
    let Some(json) = json(alloc, bytes)? else {
        return Err(ReadErr::Syntax);
    };
    file(alloc, miner, &json)
}
