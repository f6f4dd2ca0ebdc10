// Operators between two operands.
ghost use Rattle.std.specs.Prelude.{◌≡◌, ◌≤◌, length};
ghost use Rattle.language_model.specs.Operations.{operated, combined_from, private_result, product_with, charged, operator_traps, is_classified};
ghost use Rattle.language_model.specs.Operations as row;
ghost use Rattle.language_model.specs.Words as W;
ghost use Rattle.value_steps.specs.Steps.{Does, itself};
ghost use Rattle.value_steps.specs.Views.{stage_seen, value_seen, world_seen, secrecy_seen};

use crate::applied::Applied;
use crate::classification::wanted;
use crate::drawing::{draw, words_of_operator};
use crate::gating::{gate, number_of, ring_for};
use crate::halt::Halt;
use crate::operator_gates::{operator_gates, stretched};
use crate::stage::Stage;
use crate::steps::{charge, test_at};
use crate::value::{Secrecy, Value};
use crate::world::World;
use gates::{Gate, Words};
use program_trees::{BinaryOperator, Operation};
use sc_text::TrapKind;
use std::alloc::Global;
use vector_ops::into_gate_words;

/// Charges an operator, and tests for its traps: arrays of two sizes, and a public divisor that is 0.
fn charged(stage: &mut Stage<'_>, applied: &Applied<'_>) -> Result<(), Halt>
    ensures step { Does itself (charged
        (operator_traps applied.now.operation.line applied.now.operation.operator applied.now.operation.operands
        (value_seen applied.now.left.now) (value_seen applied.now.right.now))
        (W.result_size applied.now.operation.operands (value_seen applied.now.left.now) (value_seen applied.now.right.now)))
        (stage_seen stage.old) result (stage_seen stage.new) }
    ensures spends { stage.new.left ≤ stage.old.left }
{
    let line = applied.operation.line;
    charge(stage, 1)?;
    test_at(stage, applied.are_alike(), TrapKind::Length, line)?;
    test_at(stage, applied.may_divide(), TrapKind::Div, line)?;
    charge(stage, applied.result_size().saturating_sub(1))
}

/// The result of an operator between two private operands.
fn private_result(
    alloc: Global,
    world: &World<'_>,
    stage: &mut Stage<'_>,
    applied: &Applied<'_>,
) -> Result<Value, Halt>
    ensures step { Does value_seen
        (private_result (world_seen world.now) applied.now.operation.operator applied.now.operation.operands (value_seen applied.now.left.now)
        (value_seen applied.now.right.now)) (stage_seen stage.old) result (stage_seen stage.new) }
    ensures spends { stage.new.left ≤ stage.old.left }
{
    let operator = applied.operation.operator;
    let n = applied.result_size();
    draw(world, stage, words_of_operator(operator, n))?;
    let first = number_of(alloc, stage, applied.left)?;
    let second = number_of(alloc, stage, applied.right)?;
    let left_element = applied.left.shape.element;
    let right_element = applied.right.shape.element;
    let left = stretched(stage, left_element, applied.is_scalar_left(), n, first)?;
    let right = stretched(stage, right_element, applied.is_scalar_right(), n, second)?;
    let number = operator_gates(alloc, stage, operator, n, left, right)?;
    let words = applied.result_words(alloc)?;
    Ok(Value::hidden(applied.result_shape(), number, words))
}

/// The result of a product of a private operand, which may be a scalar beside an array, and words that everybody knows.
fn product_with(
    alloc: Global,
    stage: &mut Stage<'_>,
    applied: &Applied<'_>,
    scalar: bool,
    private: &Value,
    known: Vec<u64>,
) -> Result<Value, Halt>
    ensures step { Does value_seen
        (product_with applied.now.operation.operator applied.now.operation.operands scalar (value_seen private.now) known.items
        (W.result_words applied.now.operation.operator applied.now.operation.operands (value_seen applied.now.left.now)
        (value_seen applied.now.right.now)))
        (stage_seen stage.old) result (stage_seen stage.new) }
    ensures spends { stage.new.left ≤ stage.old.left }
{
    let operand = number_of(alloc, stage, private)?;
    let element = private.shape.element;
    let operand = stretched(stage, element, scalar, known.len() as u64, operand)?;
    let list = Words::new(into_gate_words(alloc, element, known)?);
    let number = gate(
        stage,
        Gate::MulPub {
            ring: ring_for(element),
            operand,
            list,
        },
    )?;
    let words = applied.result_words(alloc)?;
    Ok(Value::hidden(applied.result_shape(), number, words))
}

/// The result of an operator that was charged and didn't trap.
fn combined(
    alloc: Global,
    world: &World<'_>,
    stage: &mut Stage<'_>,
    applied: &Applied<'_>,
) -> Result<Value, Halt>
    ensures step { Does value_seen
        (combined_from (secrecy_seen applied.now.left.now.secrecy) (secrecy_seen applied.now.right.now.secrecy)
        (world_seen world.now) applied.now.operation.operator applied.now.operation.operands (value_seen applied.now.left.now)
        (value_seen applied.now.right.now))
        (stage_seen stage.old) result (stage_seen stage.new) }
    ensures spends { stage.new.left ≤ stage.old.left }
{
    match (applied.left.secrecy, applied.right.secrecy) {
        (Secrecy::Plain, Secrecy::Plain) => {
            let words = applied.result_words(alloc)?;
            Ok(Value::plain(applied.result_shape(), words))
        }
        (Secrecy::Private(_), Secrecy::Private(_)) => private_result(alloc, world, stage, applied),
        (Secrecy::Private(_), Secrecy::Plain) => {
            let known = applied.right_words(alloc)?;
            let scalar = applied.is_scalar_left();
            product_with(alloc, stage, applied, scalar, applied.left, known)
        }
        (Secrecy::Plain, Secrecy::Private(_)) => {
            let known = applied.left_words(alloc)?;
            let scalar = applied.is_scalar_right();
            product_with(alloc, stage, applied, scalar, applied.right, known)
        }
    }
}

/// An operator between operands that are classified as they are wanted.
pub fn operated(
    alloc: Global,
    world: &World<'_>,
    stage: &mut Stage<'_>,
    applied: &Applied<'_>,
) -> Result<Value, Halt>
    ensures step { Does value_seen
        (operated (world_seen world.now) applied.now.operation.line applied.now.operation.operator applied.now.operation.operands
        (value_seen applied.now.left.now) (value_seen applied.now.right.now)) (stage_seen stage.old) result (stage_seen stage.new) }
    ensures spends { stage.new.left ≤ stage.old.left }
{
    charged(stage, applied)?;
    combined(alloc, world, stage, applied)
}

/// Whether an operand is public beside a private one, and has to be classified.
fn is_classified(operator: BinaryOperator, this: &Value, other: &Value) -> bool
    ensures { result ≡ is_classified operator (value_seen this.now) (value_seen other.now) }
{
    !operator.is_product() && other.is_private() && !this.is_private()
}

/// An operator on two values: a public one beside a private one is classified first, but in a product.
pub fn operation(
    alloc: Global,
    world: &World<'_>,
    stage: &mut Stage<'_>,
    operation: Operation,
    left: Value,
    right: Value,
) -> Result<Value, Halt>
    ensures step { Does value_seen
        (row.operation (world_seen world.now) operation.line operation.operator operation.operands (value_seen left) (value_seen right))
        (stage_seen stage.old) result (stage_seen stage.new) }
    ensures spends { stage.new.left ≤ stage.old.left }
{
    let classify_left = is_classified(operation.operator, &left, &right);
    let classify_right = is_classified(operation.operator, &right, &left);
    let left = wanted(alloc, stage, classify_left, left)?;
    let right = wanted(alloc, stage, classify_right, right)?;
    let applied = Applied {
        operation,
        left: &left,
        right: &right,
    };
    operated(alloc, world, stage, &applied)
}
