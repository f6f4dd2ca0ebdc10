// The public part of a run's inputs.
ghost use Rattle.std.specs.Prelude.{◌≡◌, IfOk};
ghost use Rattle.value_file.specs.Input.{AreInputs};
ghost use Rattle.value_file.specs.PublicFile.{IsWritable};
ghost use Rattle.value_file.specs.Public.{shown, public_entry, part_of};

use crate::inputs::{Entry, Inputs};
use crate::value::{DataType, Domain, Shape, Value};
use sc_text::Name;
use std::alloc::{AllocError, Global};
use std::marker::Model;

/// What everybody may know of an input: the value of a public one, type and shape of a private one.
pub enum PublicValue {
    Known(Value),
    Hidden { data_type: DataType, shape: Shape },
}

// Written out, so that an early exit calls this once and doesn't take the value apart in its place.
impl Drop for PublicValue {
    fn drop(self) {
        match self {
            PublicValue::Known(_)
            | PublicValue::Hidden {
                data_type: _,
                shape: _,
            } => {}
        }
    }
}

impl PublicValue {
    ghost use Rattle.std.specs.Prelude.{◌≡◌};
    ghost use Rattle.value_file.specs.PublicFile.{public_count};

    /// The count of the elements; a scalar is one.
    pub fn count(&self) -> u64
        ensures { result ≡ public_count self.now }
    {
        match self {
            PublicValue::Known(value) => value.count(),
            PublicValue::Hidden { shape, .. } => shape.count(),
        }
    }
}

/// What everybody may know of one input, with its name.
pub struct PublicEntry {
    pub name: Name,
    pub value: PublicValue,
}

// Written out, so that an early exit calls this once.
impl Drop for PublicEntry {
    fn drop(self) {
        let PublicEntry { name: _, value: _ } = self;
    }
}

/// What everybody may know of the inputs of a run, in the order of their file. Clauses see the list of the entries.
pub struct PublicPart {
    entries: Vec<PublicEntry>,
}

// Written out, so that an early exit calls this once.
impl Drop for PublicPart {
    fn drop(self) {
        let PublicPart { entries: _ } = self;
    }
}

impl Model for PublicPart {
    ghost use Rattle.std.specs.Prelude.{List};
    ghost use Rattle.value_file.specs.declared.public.PublicEntry.{PublicEntry};

    ghost Value = { List PublicEntry };

    ghost view = { λ part. part.entries.items };
}

impl PublicPart {
    /// The public part of these entries.
    pub fn new(entries: Vec<PublicEntry>) -> Self
        ensures { result ≡ entries.items }
    {
        PublicPart { entries }
    }

    /// The entries, in order.
    pub fn entries(&self) -> &[PublicEntry]
        ensures { result.now ≡ self.now }
    {
        &self.entries
    }
}

fn shown(alloc: Global, domain: Domain, value: &Value) -> Result<PublicValue, AllocError>
    ensures { IfOk result (λ value_shown. value_shown ≡ shown domain value.now) }
{
    match domain {
        Domain::Public => Ok(PublicValue::Known(value.copy(alloc)?)),
        Domain::Private => Ok(PublicValue::Hidden {
            data_type: value.data_type(),
            shape: value.shape(),
        }),
    }
}

fn public_entry(alloc: Global, entry: &Entry) -> Result<PublicEntry, AllocError>
    ensures { IfOk result (λ made. made ≡ public_entry entry.now) }
{
    Ok(PublicEntry {
        name: entry.name.copy(alloc)?,
        value: shown(alloc, entry.domain, &entry.value)?,
    })
}

/// The public part of inputs: each private value is replaced by its type and shape.
pub fn public_part(alloc: Global, inputs: &Inputs) -> Result<PublicPart, AllocError>
    ensures value { IfOk result (λ part. part ≡ part_of inputs.now) }
    ensures form { AreInputs inputs.now → IfOk result IsWritable }
{
    let mut entries = Vec::new(alloc);
    for entry in inputs.entries() {
        entries.push(public_entry(alloc, entry)?)?;
    }
    Ok(PublicPart::new(entries))
}
