// Share files as JSON.
ghost use Rattle.std.specs.Prelude.{◌≡◌, codes, length, Ok, IfOk, OnOk};
ghost use Rattle.proto_core.specs.Parties.{count_of as number_of};
ghost use Rattle.serde_json.specs.Data.{string, put as with_member};
ghost use Rattle.serde_json.specs.View.{view, members_view};
ghost use Rattle.value_file.specs.Public.{number_data, shape_data, type_data};
ghost use Rattle.input_share.specs.Reading.{read_share_of, AreWritable};
ghost use Rattle.input_share.specs.Written.{list_data, private_data, entry_data, file_data, file_bytes};

use crate::entry::{Part, ShareEntry, Shared};
use crate::share_file::ShareFile;
use crate::words::see_shares;
use serde_json::{Map, Value as Json, put};
use std::alloc::{AllocError, Global};
use value_file::{numbers_json, public_json, put_text, shape_json, type_word};

fn numbers(alloc: Global, words: &[u64]) -> Result<Json, AllocError>
    ensures { IfOk result (λ json. view json ≡ list_data number_data words.now) }
{
    Ok(Json::Array(numbers_json(alloc, words)?))
}

// The members of a private input's entry.
fn put_private(
    members: &mut Map<String, Json>,
    alloc: Global,
    name: &str,
    shared: &Shared,
) -> Result<(), AllocError>
    ensures { OnOk result (members_view members.new.entries
        ≡ with_member (codes "type") (type_data shared.now.data_type)
        (with_member (codes "share") (list_data number_data shared.now.words)
        (with_member (codes "shape") (shape_data shared.now.shape)
        (with_member (codes "name") (string name.now)
        (with_member (codes "domain") (string (codes "private")) (members_view members.old.entries)))))) }
{
    put_text(members, alloc, "domain", "private")?;
    put_text(members, alloc, "name", name)?;
    let shape = shape_json(alloc, shared.shape)?;
    put(members, alloc, "shape", shape)?;
    let share = numbers(alloc, shared.words.as_slice())?;
    put(members, alloc, "share", share)?;
    put_text(members, alloc, "type", type_word(shared.data_type))
}

fn private_json(alloc: Global, name: &str, shared: &Shared) -> Result<Json, AllocError>
    ensures { IfOk result (λ json. view json ≡ private_data name.now shared.now) }
{
    let mut members = Map::new(alloc);
    put_private(&mut members, alloc, name, shared)?;
    Ok(Json::Object(members))
}

fn entry_json(alloc: Global, entry: &ShareEntry) -> Result<Json, AllocError>
    ensures { IfOk result (λ json. view json ≡ entry_data entry.now) }
{
    match &entry.part {
        Part::Public(value) => public_json(alloc, entry.name.as_str(), value),
        Part::Private(shared) => private_json(alloc, entry.name.as_str(), shared),
    }
}

fn entries_json(alloc: Global, entries: &[ShareEntry]) -> Result<Json, AllocError>
    ensures { IfOk result (λ json. view json ≡ list_data entry_data entries.now) }
{
    let mut list = Vec::with_capacity(alloc, entries.len())?;
    for entry in entries {
        list.push(entry_json(alloc, entry)?)?;
    }
    Ok(Json::Array(list))
}

// The members of a share file.
fn put_file(
    members: &mut Map<String, Json>,
    alloc: Global,
    file: &ShareFile,
) -> Result<(), AllocError>
    ensures members { OnOk result (members_view members.new.entries
        ≡ with_member (codes "miner") (number_data (number_of file.now.miner))
        (with_member (codes "lens") (list_data number_data file.now.lens)
        (with_member (codes "inputs") (list_data entry_data file.now.entries) (members_view members.old.entries)))) }
    ensures four { OnOk result (length file.now.lens ≡ 4) }
{
    let inputs = entries_json(alloc, file.entries())?;
    put(members, alloc, "inputs", inputs)?;
    let lens = numbers(alloc, file.lens().as_slice())?;
    put(members, alloc, "lens", lens)?;
    let miner = file.miner().as_u8();
    put(members, alloc, "miner", Json::from(miner))
}

fn file_json(alloc: Global, file: &ShareFile) -> Result<Json, AllocError>
    ensures json { IfOk result (λ json. view json ≡ file_data file.now) }
    ensures four { OnOk result (length file.now.lens ≡ 4) }
{
    let mut members = Map::new(alloc);
    put_file(&mut members, alloc, file)?;
    Ok(Json::Object(members))
}

/// Writes a share file: compact JSON, the keys of each object in the order of their bytes, with no newline. `read_share`
/// reads it as this file if no name stands twice, no entry has more than 65,536 elements and each share has as many words
/// as its shape says.
pub fn write_share(alloc: Global, file: &ShareFile) -> Result<Vec<u8>, AllocError>
    ensures bytes { IfOk result (λ bytes. bytes.items ≡ file_bytes file.now) }
    ensures read_again { IfOk result (λ bytes. AreWritable file.now.entries →
        read_share_of (number_of file.now.miner) bytes.items ≡ Ok file.now) }
{
    see_shares(file.entries());
    let bytes = file_json(alloc, file)?.to_vec(alloc)?;
    Ok(bytes)
}
