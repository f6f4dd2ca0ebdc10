// What the public part of a file's inputs is to a run.
ghost use Rattle.std.specs.Prelude.{◌≡◌, ◌≤◌, IfOk, map};
ghost use Rattle.program_trees.specs.Shapes.{shape_of};
ghost use Rattle.value_file.specs.PublicFile.{IsWritable, public_count};
ghost use Rattle.value_steps.specs.Views.{given_seen};
ghost use Rattle.clear_eval.specs.Offers.{type_given, is_array, part_given};

use crate::offering::{shape_given, words_given};
use program_trees::{DataType, Shape};
use std::alloc::{AllocError, Global};
use value_file::{PublicEntry, PublicPart, PublicValue};
use value_steps::GivenInput;

/// The shape of an input of which type and shape are known.
fn shape_told(data_type: value_file::DataType, shape: value_file::Shape) -> Shape
    ensures { result ≡ shape_of (type_given data_type) (is_array shape) }
{
    let element = match data_type {
        value_file::DataType::Uint64 => DataType::Uint64,
        value_file::DataType::Int64 => DataType::Int64,
        value_file::DataType::Bool => DataType::Bool,
    };
    let array = match shape {
        value_file::Shape::Scalar => false,
        value_file::Shape::Array(_) => true,
    };
    Shape { element, array }
}

/// An entry of a public part, as a run takes it: with zeros in the place of what is private.
fn part_given(alloc: Global, entry: &PublicEntry) -> Result<GivenInput, AllocError>
    requires { public_count entry.now.value ≤ 65536 }
    ensures { IfOk result (λ given. given_seen given ≡ part_given entry.now) }
{
    let name = entry.name.copy(alloc)?;
    match &entry.value {
        PublicValue::Known(value) => Ok(GivenInput {
            name,
            private: false,
            shape: shape_given(value),
            words: words_given(alloc, value)?,
        }),
        PublicValue::Hidden { data_type, shape } => Ok(GivenInput {
            name,
            private: true,
            shape: shape_told(*data_type, *shape),
            words: vec![in alloc; 0; shape.count() as usize]?,
        }),
    }
}

/// The entries of a public part, as a run takes them.
pub fn parts_given(alloc: Global, part: &PublicPart) -> Result<Vec<GivenInput>, AllocError>
    requires { IsWritable part.now }
    ensures { IfOk result (λ given. map given_seen given.items ≡ map part_given part.now) }
{
    let mut given = Vec::new(alloc);
    for entry in part.entries() {
        given.push(part_given(alloc, entry)?)?;
    }
    Ok(given)
}
