//! The files of a run's inputs: the inputs themselves, and their public part, in which a private value is replaced by its
//! shape.
#![tactic(auto)]

pub mod fields;
mod inputs;
pub mod json;
mod lists;
mod public;
mod public_reading;
mod public_writing;
mod read_err;
mod reading;
mod value;
mod value_reading;
mod words;

pub use inputs::{Entry, Inputs};
pub use lists::{Bits, Words};
pub use public::{PublicEntry, PublicPart, PublicValue, public_part};
pub use public_reading::{read_public, shape_field};
pub use public_writing::{
    numbers_json, public_json, put_text, shape_json, type_json, type_word, value_json, write_public,
};
pub use read_err::{Field, ReadErr};
pub use reading::read;
pub use value::{DataType, Domain, Shape, Value};
pub use value_reading::numbers;
