// What everybody may know of the inputs in a share file.
ghost use Rattle.std.specs.Prelude.{◌≡◌, ℕ, List, IfOk};
ghost use Rattle.proto_core.specs.declared.party.Number.{Number};
ghost use Rattle.value_file.specs.Public.{part_of};
ghost use Rattle.value_file.specs.declared.inputs.Entry.{Entry};
ghost use Rattle.input_share.specs.Dealing.{dealt_entries};
ghost use Rattle.input_share.specs.Shapes.{known_of, known_entry, shapes_of};

use crate::entry::{Part, ShareEntry};
use crate::share_file::ShareFile;
use std::alloc::{AllocError, Global};
use value_file::{PublicEntry, PublicPart, PublicValue};

fn known(alloc: Global, part: &Part) -> Result<PublicValue, AllocError>
    ensures { IfOk result (λ known. known ≡ known_of part.now) }
{
    match part {
        Part::Public(value) => Ok(PublicValue::Known(value.copy(alloc)?)),
        Part::Private(shared) => Ok(PublicValue::Hidden {
            data_type: shared.data_type,
            shape: shared.shape,
        }),
    }
}

fn known_entry(alloc: Global, entry: &ShareEntry) -> Result<PublicEntry, AllocError>
    ensures { IfOk result (λ known. known ≡ known_entry entry.now) }
{
    Ok(PublicEntry {
        name: entry.name.copy(alloc)?,
        value: known(alloc, &entry.part)?,
    })
}

/// The public part of the inputs that were dealt: each share is replaced by its data type and shape.
pub fn shape_part(alloc: Global, file: &ShareFile) -> Result<PublicPart, AllocError>
    ensures { IfOk result (λ part. part ≡ shapes_of file.now.entries) }
{
    let mut entries = Vec::new(alloc);
    for entry in file.entries() {
        entries.push(known_entry(alloc, entry)?)?;
    }
    Ok(PublicPart::new(entries))
}

/// Each miner's file has the public part of the inputs that were dealt.
pub fn dealing_keeps_shapes()
    ensures { (miner : Number) (inputs : List Entry) (words : List ℕ) → shapes_of (dealt_entries miner inputs words) ≡ part_of inputs }
{}
