// Operations of one operand.
ghost use Rattle.std.specs.Prelude.{◌≡◌, ◌≤◌, ◌*◌, length, IfOk};
ghost use Rattle.std.specs.List.{flat_map};
ghost use Rattle.gates.specs.Clear.{bits_of};
ghost use Rattle.language_model.specs.Operations.{negated, cast_to, changed, converted, size_told, summed, summed_from, bits_extracted};
ghost use Rattle.language_model.specs.Operations.{bits_from};
ghost use Rattle.value_steps.specs.Steps.{Does, itself};
ghost use Rattle.value_steps.specs.Views.{stage_seen, value_seen, world_seen, secrecy_seen};

use crate::drawing::{draw, words_for_bits, words_of_cast};
use crate::gating::{bits_gates, gate, number_of};
use crate::halt::Halt;
use crate::operator_gates::{cast_gates, flip};
use crate::stage::Stage;
use crate::steps::{charge, charged, charged_array};
use crate::value::{Secrecy, Value};
use crate::world::World;
use gates::Gate;
use program_trees::{Cast, DataType, Shape};
use std::alloc::{AllocError, Global};

/// True for false, and false for true.
pub fn negated(alloc: Global, stage: &mut Stage<'_>, value: Value) -> Result<Value, Halt>
    ensures step { Does value_seen (negated (value_seen value)) (stage_seen stage.old) result (stage_seen stage.new) }
    ensures spends { stage.new.left ≤ stage.old.left }
{
    charged(stage, value.size())?;
    match value.secrecy {
        Secrecy::Plain => {
            let words = vector_ops::flipped(alloc, &value.words)?;
            Ok(Value::plain(value.shape, words))
        }
        Secrecy::Private(_) => {
            let operand = number_of(alloc, stage, &value)?;
            let number = flip(alloc, stage, value.size(), operand)?;
            let words = vector_ops::flipped(alloc, &value.words)?;
            Ok(Value::hidden(value.shape, number, words))
        }
    }
}

/// A private value as one of another data type.
fn changed(
    alloc: Global,
    world: &World<'_>,
    stage: &mut Stage<'_>,
    cast: Cast,
    value: Value,
) -> Result<Value, Halt>
    ensures step { Does value_seen (changed (world_seen world.now) cast (value_seen value)) (stage_seen stage.old) result (stage_seen stage.new) }
    ensures spends { stage.new.left ≤ stage.old.left }
{
    let n = value.size();
    draw(world, stage, words_of_cast(cast, n))?;
    let operand = number_of(alloc, stage, &value)?;
    let number = cast_gates(alloc, stage, cast, n, operand)?;
    let words = vector_ops::cast_words(alloc, cast, &value.words)?;
    let shape = cast.shape(value.shape.array);
    Ok(Value::hidden(shape, number, words))
}

/// A value between numbers and truth values.
fn converted(
    alloc: Global,
    world: &World<'_>,
    stage: &mut Stage<'_>,
    cast: Cast,
    value: Value,
) -> Result<Value, Halt>
    ensures step { Does value_seen (converted (world_seen world.now) (secrecy_seen value.secrecy) cast (value_seen value)) (stage_seen stage.old) result
        (stage_seen stage.new) }
    ensures spends { stage.new.left ≤ stage.old.left }
{
    match value.secrecy {
        Secrecy::Plain => {
            let words = vector_ops::cast_words(alloc, cast, &value.words)?;
            let shape = cast.shape(value.shape.array);
            Ok(Value::plain(shape, words))
        }
        Secrecy::Private(_) => changed(alloc, world, stage, cast, value),
    }
}

/// A value of one data type as one of another, or of the same.
pub fn cast_to(
    alloc: Global,
    world: &World<'_>,
    stage: &mut Stage<'_>,
    cast: Cast,
    value: Value,
) -> Result<Value, Halt>
    ensures step { Does value_seen (cast_to (world_seen world.now) cast (value_seen value)) (stage_seen stage.old) result (stage_seen stage.new) }
    ensures spends { stage.new.left ≤ stage.old.left }
{
    charged(stage, value.size())?;
    match (cast.given, cast.wanted) {
        (DataType::Uint64, DataType::Uint64)
        | (DataType::Int64, DataType::Int64)
        | (DataType::Bool, DataType::Bool) => Ok(value),
        (DataType::Uint64, DataType::Int64) | (DataType::Int64, DataType::Uint64) => {
            Ok(value.relabelled(cast))
        }
        (DataType::Uint64 | DataType::Int64, DataType::Bool)
        | (DataType::Bool, DataType::Uint64 | DataType::Int64) => {
            converted(alloc, world, stage, cast, value)
        }
    }
}

/// How many elements a value has: everybody may know that.
pub fn size_told(alloc: Global, stage: &mut Stage<'_>, value: &Value) -> Result<Value, Halt>
    ensures step { Does value_seen (size_told (value_seen value.now)) (stage_seen stage.old) result (stage_seen stage.new) }
    ensures spends { stage.new.left ≤ stage.old.left }
{
    charge(stage, 1)?;
    Ok(Value::number(alloc, value.size())?)
}

/// The sum of the words of a value that was charged.
fn summed_value(alloc: Global, stage: &mut Stage<'_>, value: &Value) -> Result<Value, Halt>
    ensures step { Does value_seen (summed_from (secrecy_seen value.now.secrecy) (value_seen value.now)) (stage_seen stage.old) result (stage_seen stage.new) }
    ensures spends { stage.new.left ≤ stage.old.left }
{
    let total = vector_ops::wrapping_sum(&value.words);
    let words = vector_ops::repeated(alloc, 1, total)?;
    let shape = Shape::scalar(value.shape.element);
    match value.secrecy {
        Secrecy::Plain => Ok(Value::plain(shape, words)),
        Secrecy::Private(_) => {
            let operand = number_of(alloc, stage, value)?;
            let number = gate(stage, Gate::Sum { operand })?;
            Ok(Value::hidden(shape, number, words))
        }
    }
}

/// The sum of the words, modulo 2^64.
pub fn summed(alloc: Global, stage: &mut Stage<'_>, value: &Value) -> Result<Value, Halt>
    ensures step { Does value_seen (summed (value_seen value.now)) (stage_seen stage.old) result (stage_seen stage.new) }
    ensures spends { stage.new.left ≤ stage.old.left }
{
    charge(stage, 1)?;
    summed_value(alloc, stage, value)
}

/// The bits of words, 64 for each, the lowest first.
#[tactic(auto, using(crate::proofs::ResultSizes::length_bits))]
fn bits(alloc: Global, words: &[u64]) -> Result<Vec<u64>, AllocError>
    ensures bits { IfOk result (λ bits. bits.items ≡ flat_map bits_of words.now) }
    ensures size { IfOk result (λ bits. length bits.items ≡ 64 * length words.now) }
{
    vector_ops::bits(alloc, words)
}

/// The bits of a value that was charged and isn't too large.
fn bits_from(
    alloc: Global,
    world: &World<'_>,
    stage: &mut Stage<'_>,
    value: &Value,
) -> Result<Value, Halt>
    requires { 64 * length value.now.words.items ≤ 1048576 }
    ensures step { Does value_seen (bits_from (world_seen world.now) (secrecy_seen value.now.secrecy) (value_seen value.now))
        (stage_seen stage.old) result (stage_seen stage.new) }
    ensures spends { stage.new.left ≤ stage.old.left }
{
    let shape = Shape {
        element: DataType::Bool,
        array: true,
    };
    match value.secrecy {
        Secrecy::Plain => Ok(Value::plain(shape, bits(alloc, &value.words)?)),
        Secrecy::Private(_) => {
            let n = value.size();
            draw(world, stage, words_for_bits(n))?;
            let operand = number_of(alloc, stage, value)?;
            let number = bits_gates(alloc, stage, n, operand)?;
            let words = bits(alloc, &value.words)?;
            Ok(Value::hidden(shape, number, words))
        }
    }
}

/// The bits of the words, 64 for each, the lowest first.
pub fn bits_extracted(
    alloc: Global,
    world: &World<'_>,
    stage: &mut Stage<'_>,
    line: u32,
    value: &Value,
) -> Result<Value, Halt>
    ensures step { Does value_seen (bits_extracted (world_seen world.now) line (value_seen value.now)) (stage_seen stage.old) result (stage_seen stage.new) }
    ensures spends { stage.new.left ≤ stage.old.left }
{
    charged_array(stage, line, 64 * value.size())?;
    bits_from(alloc, world, stage, value)
}
