// The gates that a run makes.
ghost use Rattle.std.specs.Prelude.{◌≡◌, ◌≤◌, ◌+◌, ◌*◌, ◌^◌, IfSome, IfOk};
ghost use Rattle.gates.specs.Counts.{made_by_all};
ghost use Rattle.plans.specs.Equality.{eq_plan};
ghost use Rattle.plans.specs.BitExtract.{bits_plan};
ghost use Rattle.oblivious_index.specs.Lookup.{lookup_plan};
ghost use Rattle.language_model.specs.Effects.{gate, next_number, put_gates, planned};
ghost use Rattle.language_model.specs.Operations.{number_of, zero_gates};
ghost use Rattle.language_model.specs.Values.{ring_for};
ghost use Rattle.value_steps.specs.Orders.{less_by, order_plan};
ghost use Rattle.value_steps.specs.Steps.{Does, itself};
ghost use Rattle.value_steps.specs.Views.{stage_seen, value_seen};

use crate::element_gates::SizedOperand;
use crate::halt::Halt;
use crate::stage::Stage;
use crate::value::{Secrecy, Value};
use gates::{Gate, RingKind, Words};
use plans::{bit_extract, compare, equality};
use program_trees::DataType;
use std::alloc::{AllocError, Global};
use vector_ops::gate_words;

/// The most values that a plan makes.
const LONGEST_PLAN: u64 = 130;

/// Makes a gate of one value, and tells the number of this value.
pub(crate) fn gate(stage: &mut Stage<'_>, made: Gate) -> Result<u64, Halt>
    ensures step { Does itself (gate made) (stage_seen stage.old) result (stage_seen stage.new) }
    ensures spends { stage.new.left ≤ stage.old.left }
{
    let number = stage.made;
    stage.gates.push(made)?;
    stage.made = number.checked_add(1).ok_or(Halt::Memory)?;
    Ok(number)
}

/// The number of the next value. There is room for a plan from there on: no memory holds so many gates that there isn't.
pub(crate) fn next_number(stage: &Stage<'_>) -> Result<u64, Halt>
    ensures step { Does itself next_number (stage_seen stage.now) result (stage_seen stage.now) }
    ensures room { IfOk result (λ first. first + 130 ≤ 2 ^ 64) }
{
    let first = stage.made;
    if first <= u64::MAX - LONGEST_PLAN {
        Ok(first)
    } else {
        Err(Halt::Memory)
    }
}

/// How many values gates make, where a `u64` holds the number.
#[tactic(auto, using(crate::proofs::Counts::made_more))]
fn values_made(gates: &[Gate]) -> Option<u64>
    ensures { IfSome result (λ made. made ≡ made_by_all gates.now) }
{
    let mut made: u64 = 0;
    for gate in gates {
        made = made.checked_add(gate.made_by())?;
    }
    Some(made)
}

/// Moves these gates after those that were made, and tells the number of the last value that they make.
pub(crate) fn put_gates(stage: &mut Stage<'_>, gates: &mut Vec<Gate>) -> Result<u64, Halt>
    ensures step { Does itself (put_gates gates.old.items) (stage_seen stage.old) result (stage_seen stage.new) }
    ensures spends { stage.new.left ≤ stage.old.left }
{
    let made = values_made(gates).ok_or(Halt::Memory)?;
    let next = stage.made.checked_add(made).ok_or(Halt::Memory)?;
    stage.gates.append(gates)?;
    stage.made = next;
    Ok(next.saturating_sub(1))
}

/// The gates that test each of `n` words for zero, before their results are packed.
fn zero_test(alloc: Global, stage: &mut Stage<'_>, n: u64, operand: u64) -> Result<u64, Halt>
    requires { n ≤ 1048576 }
    ensures step { Does itself (planned (λ first. eq_plan first operand)) (stage_seen stage.old) result (stage_seen stage.new) }
    ensures spends { stage.new.left ≤ stage.old.left }
{
    let first = next_number(stage)?;
    let mut gates = equality::plan(alloc, first, operand, n)?;
    put_gates(stage, &mut gates)
}

/// The gates that tell whether each of `n` words is zero.
pub(crate) fn zero_gates(
    alloc: Global,
    stage: &mut Stage<'_>,
    n: u64,
    operand: u64,
) -> Result<u64, Halt>
    requires { n ≤ 1048576 }
    ensures step { Does itself (zero_gates operand) (stage_seen stage.old) result (stage_seen stage.new) }
    ensures spends { stage.new.left ≤ stage.old.left }
{
    let zero = zero_test(alloc, stage, n, operand)?;
    gate(stage, Gate::Pack { operand: zero })
}

/// The gates that turn `n` numbers into their bits, which are packed so.
pub(crate) fn bits_gates(
    alloc: Global,
    stage: &mut Stage<'_>,
    n: u64,
    operand: u64,
) -> Result<u64, Halt>
    requires { n ≤ 1048576 }
    ensures step { Does itself (planned (λ first. bits_plan first operand n)) (stage_seen stage.old) result (stage_seen stage.new) }
    ensures spends { stage.new.left ≤ stage.old.left }
{
    let first = next_number(stage)?;
    let mut gates = bit_extract::plan(alloc, first, operand, n)?;
    put_gates(stage, &mut gates)
}

/// As what two numbers are compared.
#[derive(Clone, Copy)]
pub(crate) enum Order {
    /// As numbers below 2^64.
    Unsigned,
    /// As numbers from -2^63 to 2^63 - 1, by two's complement.
    Signed,
}

/// The gates of the plan that compares each two of `n` numbers.
fn order_gates(
    alloc: Global,
    order: Order,
    first: u64,
    left: u64,
    right: u64,
    n: u64,
) -> Result<Vec<Gate>, AllocError>
    requires numbers { first + 130 ≤ 2 ^ 64 }
    requires elements { n ≤ 1048576 }
    ensures { IfOk result (λ gates. gates.items ≡ order_plan order first left right n) }
{
    match order {
        Order::Unsigned => compare::plan(alloc, first, left, right, n),
        Order::Signed => compare::plan_signed(alloc, first, left, right, n),
    }
}

/// The gates that compare each two of `n` numbers, before their results are packed.
fn less_test(
    alloc: Global,
    stage: &mut Stage<'_>,
    order: Order,
    n: u64,
    left: u64,
    right: u64,
) -> Result<u64, Halt>
    requires { n ≤ 1048576 }
    ensures step { Does itself (planned (λ first. order_plan order first left right n)) (stage_seen stage.old) result (stage_seen stage.new) }
    ensures spends { stage.new.left ≤ stage.old.left }
{
    let first = next_number(stage)?;
    let mut gates = order_gates(alloc, order, first, left, right, n)?;
    put_gates(stage, &mut gates)
}

/// The gates that tell of each two of `n` numbers whether the first is less.
pub(crate) fn less_gates(
    alloc: Global,
    stage: &mut Stage<'_>,
    order: Order,
    n: u64,
    left: u64,
    right: u64,
) -> Result<u64, Halt>
    requires { n ≤ 1048576 }
    ensures step { Does itself (less_by order n left right) (stage_seen stage.old) result (stage_seen stage.new) }
    ensures spends { stage.new.left ≤ stage.old.left }
{
    let less = less_test(alloc, stage, order, n, left, right)?;
    gate(stage, Gate::Pack { operand: less })
}

/// The gates that look up the elements of an array at these indices.
pub(crate) fn lookup_gates(
    alloc: Global,
    stage: &mut Stage<'_>,
    array: SizedOperand,
    index: SizedOperand,
) -> Result<u64, Halt>
    requires { array.size * index.size ≤ 1048576 }
    ensures step { Does itself (planned (λ first. lookup_plan first array.number index.number array.size index.size))
        (stage_seen stage.old) result (stage_seen stage.new) }
    ensures spends { stage.new.left ≤ stage.old.left }
{
    let first = next_number(stage)?;
    let mut gates = oblivious_index::plan(
        alloc,
        first,
        array.number,
        index.number,
        array.size,
        index.size,
    )?;
    put_gates(stage, &mut gates)
}

/// The number of a private value. One that was never stored, and a public one, is first made a constant.
pub(crate) fn number_of(alloc: Global, stage: &mut Stage<'_>, value: &Value) -> Result<u64, Halt>
    ensures step { Does itself (number_of (value_seen value.now)) (stage_seen stage.old) result (stage_seen stage.new) }
    ensures spends { stage.new.left ≤ stage.old.left }
{
    match value.secrecy {
        Secrecy::Private(Some(number)) => Ok(number),
        Secrecy::Private(None) | Secrecy::Plain => {
            let list = Words::new(gate_words(alloc, value.shape.element, &value.words)?);
            gate(stage, Gate::Const { list })
        }
    }
}

/// The ring in which values of a data type are shared.
pub(crate) fn ring_for(element: DataType) -> RingKind
    ensures { result ≡ ring_for element }
{
    match element {
        DataType::Uint64 | DataType::Int64 => RingKind::Arithmetic,
        DataType::Bool => RingKind::Boolean,
    }
}
