// The gates of operators on private values.
ghost use Rattle.std.specs.Prelude.{◌≡◌, ◌≤◌, replicate, IfOk};
ghost use Rattle.program_trees.specs.declared.expression.DataType.TheVariants as datatype;
ghost use Rattle.program_trees.specs.declared.operators.BinaryOperator.TheVariants.{Bools as OnBools};
ghost use Rattle.language_model.specs.Operations.{stretched, flip, equal_gates, number_gates, or_gates, operator_gates};
ghost use Rattle.language_model.specs.Operations.{cast_gates, conversion_gates, truth_gates};
ghost use Rattle.language_model.specs.Values.{gate_words};
ghost use Rattle.value_steps.specs.Orders.{less_by};
ghost use Rattle.value_steps.specs.Steps.{Does, itself};
ghost use Rattle.value_steps.specs.Views.{stage_seen};

use crate::element_gates::repeated_gate;
use crate::gating::{Order, gate, less_gates, next_number, zero_gates};
use crate::halt::Halt;
use crate::stage::Stage;
use gates::{Gate, Words};
use program_trees::{BinaryOperator, BoolOperator, Cast, DataType, OperatorSign};
use std::alloc::{AllocError, Global};
use vector_ops::{into_gate_words, repeated};

/// A private scalar beside an array of `n` elements as one of as many; any other operand stays as it is.
pub(crate) fn stretched(
    stage: &mut Stage<'_>,
    element: DataType,
    scalar: bool,
    n: u64,
    operand: u64,
) -> Result<u64, Halt>
    ensures step { Does itself (stretched element scalar n operand) (stage_seen stage.old) result (stage_seen stage.new) }
    ensures spends { stage.new.left ≤ stage.old.left }
{
    if scalar {
        gate(stage, repeated_gate(element, operand, n))
    } else {
        Ok(operand)
    }
}

/// The words of `n` true values.
fn true_words(alloc: Global, n: u64) -> Result<Vec<u64>, AllocError>
    ensures { IfOk result (λ words. words.items ≡ gate_words datatype.Bool (replicate n 1)) }
{
    into_gate_words(alloc, DataType::Bool, repeated(alloc, n as usize, 1)?)
}

/// True for false, and false for true, `n` times.
pub(crate) fn flip(alloc: Global, stage: &mut Stage<'_>, n: u64, operand: u64) -> Result<u64, Halt>
    ensures step { Does itself (flip n operand) (stage_seen stage.old) result (stage_seen stage.new) }
    ensures spends { stage.new.left ≤ stage.old.left }
{
    let list = Words::new(true_words(alloc, n)?);
    let ones = gate(stage, Gate::Const { list })?;
    gate(
        stage,
        Gate::Xor {
            left: operand,
            right: ones,
        },
    )
}

/// Whether each two of `n` numbers are equal.
fn equal_gates(
    alloc: Global,
    stage: &mut Stage<'_>,
    n: u64,
    left: u64,
    right: u64,
) -> Result<u64, Halt>
    requires { n ≤ 1048576 }
    ensures step { Does itself (equal_gates left right) (stage_seen stage.old) result (stage_seen stage.new) }
    ensures spends { stage.new.left ≤ stage.old.left }
{
    let difference = gate(stage, Gate::Sub { left, right })?;
    zero_gates(alloc, stage, n, difference)
}

/// An operator on `n` numbers that are compared in this order. The operators that are left out have no private operands.
fn number_gates(
    alloc: Global,
    stage: &mut Stage<'_>,
    order: Order,
    op: OperatorSign,
    n: u64,
    left: u64,
    right: u64,
) -> Result<u64, Halt>
    requires { n ≤ 1048576 }
    ensures step { Does itself (number_gates (less_by order) op n left right) (stage_seen stage.old) result (stage_seen stage.new) }
    ensures spends { stage.new.left ≤ stage.old.left }
{
    match op {
        OperatorSign::Add => gate(stage, Gate::Add { left, right }),
        OperatorSign::Subtract => gate(stage, Gate::Sub { left, right }),
        OperatorSign::Multiply => gate(stage, Gate::Mul { left, right }),
        OperatorSign::Equal => equal_gates(alloc, stage, n, left, right),
        OperatorSign::NotEqual => {
            let equal = equal_gates(alloc, stage, n, left, right)?;
            flip(alloc, stage, n, equal)
        }
        OperatorSign::Less => less_gates(alloc, stage, order, n, left, right),
        OperatorSign::Greater => less_gates(alloc, stage, order, n, right, left),
        OperatorSign::GreaterOrEqual => {
            let less = less_gates(alloc, stage, order, n, left, right)?;
            flip(alloc, stage, n, less)
        }
        OperatorSign::LessOrEqual => {
            let greater = less_gates(alloc, stage, order, n, right, left)?;
            flip(alloc, stage, n, greater)
        }
        OperatorSign::Divide
        | OperatorSign::Remainder
        | OperatorSign::And
        | OperatorSign::Or
        | OperatorSign::Xor => next_number(stage),
    }
}

/// Either is true: one of them is, or both are.
fn or_gates(stage: &mut Stage<'_>, left: u64, right: u64) -> Result<u64, Halt>
    ensures step { Does itself (or_gates left right) (stage_seen stage.old) result (stage_seen stage.new) }
    ensures spends { stage.new.left ≤ stage.old.left }
{
    let both = gate(stage, Gate::And { left, right })?;
    let one = gate(stage, Gate::Xor { left, right })?;
    gate(
        stage,
        Gate::Xor {
            left: one,
            right: both,
        },
    )
}

/// An operator on `n` truth values.
fn bool_gates(
    alloc: Global,
    stage: &mut Stage<'_>,
    op: BoolOperator,
    n: u64,
    left: u64,
    right: u64,
) -> Result<u64, Halt>
    ensures step { Does itself (operator_gates (OnBools op) n left right) (stage_seen stage.old) result (stage_seen stage.new) }
    ensures spends { stage.new.left ≤ stage.old.left }
{
    match op {
        BoolOperator::Xor | BoolOperator::NotEqual => gate(stage, Gate::Xor { left, right }),
        BoolOperator::And => gate(stage, Gate::And { left, right }),
        BoolOperator::Or => or_gates(stage, left, right),
        BoolOperator::Equal => {
            let differ = gate(stage, Gate::Xor { left, right })?;
            flip(alloc, stage, n, differ)
        }
    }
}

/// An operator on `n` elements.
pub(crate) fn operator_gates(
    alloc: Global,
    stage: &mut Stage<'_>,
    op: BinaryOperator,
    n: u64,
    left: u64,
    right: u64,
) -> Result<u64, Halt>
    requires { n ≤ 1048576 }
    ensures step { Does itself (operator_gates op n left right) (stage_seen stage.old) result (stage_seen stage.new) }
    ensures spends { stage.new.left ≤ stage.old.left }
{
    match op {
        BinaryOperator::Words(op) => {
            number_gates(alloc, stage, Order::Unsigned, op, n, left, right)
        }
        BinaryOperator::Ints(op) => number_gates(alloc, stage, Order::Signed, op, n, left, right),
        BinaryOperator::Bools(op) => bool_gates(alloc, stage, op, n, left, right),
    }
}

/// Whether `n` numbers aren't 0.
fn truth_gates(alloc: Global, stage: &mut Stage<'_>, n: u64, operand: u64) -> Result<u64, Halt>
    requires { n ≤ 1048576 }
    ensures step { Does itself (truth_gates n operand) (stage_seen stage.old) result (stage_seen stage.new) }
    ensures spends { stage.new.left ≤ stage.old.left }
{
    let zero = zero_gates(alloc, stage, n, operand)?;
    flip(alloc, stage, n, zero)
}

/// The numbers 1 and 0 of `n` truth values.
fn conversion_gates(stage: &mut Stage<'_>, n: u64, operand: u64) -> Result<u64, Halt>
    ensures step { Does itself (conversion_gates n operand) (stage_seen stage.old) result (stage_seen stage.new) }
    ensures spends { stage.new.left ≤ stage.old.left }
{
    let single = gate(stage, Gate::Unpack { operand, count: n })?;
    gate(stage, Gate::Conv { operand: single })
}

/// A cast of `n` elements: a number is true where it isn't 0.
pub(crate) fn cast_gates(
    alloc: Global,
    stage: &mut Stage<'_>,
    cast: Cast,
    n: u64,
    operand: u64,
) -> Result<u64, Halt>
    requires { n ≤ 1048576 }
    ensures step { Does itself (cast_gates cast n operand) (stage_seen stage.old) result (stage_seen stage.new) }
    ensures spends { stage.new.left ≤ stage.old.left }
{
    match (cast.given, cast.wanted) {
        (DataType::Uint64 | DataType::Int64, DataType::Bool) => {
            truth_gates(alloc, stage, n, operand)
        }
        (DataType::Bool, DataType::Uint64 | DataType::Int64) => conversion_gates(stage, n, operand),
        (DataType::Uint64 | DataType::Int64, DataType::Uint64 | DataType::Int64)
        | (DataType::Bool, DataType::Bool) => Ok(operand),
    }
}
