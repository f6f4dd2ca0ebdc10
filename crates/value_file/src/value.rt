// The values of inputs.
ghost use Rattle.std.specs.Prelude.{◌≡◌, IfOk};
ghost use Rattle.value_file.specs.Values.{type_of, count_of, shape_of, size_of};

use crate::lists::{Bits, Words};
use std::alloc::{AllocError, Global};

/// Who may know a value: everybody, or nobody alone.
#[derive(Clone, Copy, PartialEq, Eq)]
pub enum Domain {
    Public,
    Private,
}

/// The data type of a value: numbers below 2^64, numbers from -2^63 to 2^63 - 1, or truth values.
#[derive(Clone, Copy, PartialEq, Eq)]
pub enum DataType {
    Uint64,
    Int64,
    Bool,
}

/// The shape of a value: a scalar, or an array of so many elements.
#[derive(Clone, Copy, PartialEq, Eq)]
pub enum Shape {
    Scalar,
    Array(u64),
}

impl Shape {
    /// The count of the elements; a scalar is one.
    pub fn count(self) -> u64
        ensures { result ≡ size_of self }
    {
        match self {
            Shape::Scalar => 1,
            Shape::Array(count) => count,
        }
    }
}

/// A value: a number, a number with a sign, a truth value, or an array of one of these. A number with a sign is held as its
/// two's complement word.
pub enum Value {
    Number(u64),
    Integer(u64),
    Truth(bool),
    Numbers(Words),
    Integers(Words),
    Truths(Bits),
}

// Written out, so that an early exit calls this once and doesn't take the value apart in its place.
impl Drop for Value {
    fn drop(self) {
        match self {
            Value::Number(_)
            | Value::Integer(_)
            | Value::Truth(_)
            | Value::Numbers(_)
            | Value::Integers(_)
            | Value::Truths(_) => {}
        }
    }
}

impl Value {
    /// The data type of the value.
    pub fn data_type(&self) -> DataType
        ensures { result ≡ type_of self.now }
    {
        match self {
            Value::Number(_) | Value::Numbers(_) => DataType::Uint64,
            Value::Integer(_) | Value::Integers(_) => DataType::Int64,
            Value::Truth(_) | Value::Truths(_) => DataType::Bool,
        }
    }

    /// The count of the value's elements; a scalar is one.
    pub fn count(&self) -> u64
        ensures { result ≡ count_of self.now }
    {
        match self {
            Value::Number(_) | Value::Integer(_) | Value::Truth(_) => 1,
            Value::Numbers(words) | Value::Integers(words) => words.as_slice().len() as u64,
            Value::Truths(bits) => bits.as_slice().len() as u64,
        }
    }

    /// The shape of the value.
    pub fn shape(&self) -> Shape
        ensures { result ≡ shape_of self.now }
    {
        match self {
            Value::Number(_) | Value::Integer(_) | Value::Truth(_) => Shape::Scalar,
            Value::Numbers(words) | Value::Integers(words) => {
                Shape::Array(words.as_slice().len() as u64)
            }
            Value::Truths(bits) => Shape::Array(bits.as_slice().len() as u64),
        }
    }

    /// The same value in memory of its own.
    pub fn copy(&self, alloc: Global) -> Result<Value, AllocError>
        ensures { IfOk result (λ value. value ≡ self.now) }
    {
        match self {
            Value::Number(number) => Ok(Value::Number(*number)),
            Value::Integer(word) => Ok(Value::Integer(*word)),
            Value::Truth(truth) => Ok(Value::Truth(*truth)),
            Value::Numbers(words) => Ok(Value::Numbers(words.copy(alloc)?)),
            Value::Integers(words) => Ok(Value::Integers(words.copy(alloc)?)),
            Value::Truths(bits) => Ok(Value::Truths(bits.copy(alloc)?)),
        }
    }
}
