// The gates that compare two words by their bits, in blocks that double.
ghost use Rattle.std.specs.Prelude.{◌≡◌, ◌+◌, ◌≤◌, ◌^◌, ◌++◌, OnOk, IfOk};
ghost use Rattle.plans.specs.Compare.{less_plan, order_start, order_step};
ghost use Rattle.plans.specs.CompareLaw.{TellsLess, TakesWords};
ghost use Rattle.plans.specs.Packed.{packed_less_plan, PacksLess};
ghost use Rattle.plans.specs.Signed.{signed_less_plan, packed_signed_less_plan, TellsSignedLess, PacksSignedLess};

use crate::bit_extract;
use gates::{Gate, Words};
use std::alloc::{AllocError, Global};

/// How many bits a block has before it is joined with the one above it.
const WIDTHS: [u64; 6] = [1, 2, 4, 8, 16, 32];

/// Half of all words: in what is raised by it, numbers with a sign stand in their order.
const HALF: u64 = 1 << 63;

/// The gates that tell of each single bit whether it is less in the first word, and whether it is the same in both. They make
/// the values `first + 55` to `first + 60`, of the bits of all words, which stand in the value `first + 54`.
#[tactic(auto, using(crate::proofs::CompareLaws::pushes))]
fn push_start(gates: &mut Vec<Gate>, first: u64, n: u64) -> Result<(), AllocError>
    requires { first + 110 ≤ 2 ^ 64 }
    ensures { OnOk result (gates.new.items ≡ gates.old.items ++ order_start first n) }
{
    gates.push(Gate::Part {
        operand: first + 54,
        from: 0,
        count: n,
    })?;
    gates.push(Gate::Part {
        operand: first + 54,
        from: n,
        count: n,
    })?;
    gates.push(Gate::Not {
        operand: first + 55,
    })?;
    gates.push(Gate::And {
        left: first + 56,
        right: first + 57,
    })?;
    gates.push(Gate::Xor {
        left: first + 55,
        right: first + 56,
    })?;
    gates.push(Gate::Not {
        operand: first + 59,
    })?;
    Ok(())
}

/// The gates that join each block of `width` bits with the one above it, in both values at once: `less` tells whether the block
/// that begins at a bit is less in the first word, `same` whether it is the same in both. They make the values from number
/// `next` on; the new two are those of number `next + 6` and `next + 7`.
#[tactic(auto, using(crate::proofs::CompareLaws::pushes))]
fn push_step(
    gates: &mut Vec<Gate>,
    n: u64,
    next: u64,
    less: u64,
    same: u64,
    width: u64,
) -> Result<(), AllocError>
    requires { next + 8 ≤ 2 ^ 64 }
    ensures { OnOk result (gates.new.items ≡ gates.old.items ++ order_step n next less same width) }
{
    gates.push(Gate::Shr {
        operand: same,
        count: width,
    })?;
    gates.push(Gate::Shr {
        operand: less,
        count: width,
    })?;
    gates.push(Gate::Cat {
        left: next,
        right: next,
    })?;
    gates.push(Gate::Cat {
        left: less,
        right: same,
    })?;
    gates.push(Gate::And {
        left: next + 2,
        right: next + 3,
    })?;
    gates.push(Gate::Part {
        operand: next + 4,
        from: 0,
        count: n,
    })?;
    gates.push(Gate::Xor {
        left: next + 1,
        right: next + 5,
    })?;
    gates.push(Gate::Part {
        operand: next + 4,
        from: n,
        count: n,
    })?;
    Ok(())
}

/// The gates of the plan.
fn gates_of(
    alloc: Global,
    first: u64,
    left: u64,
    right: u64,
    n: u64,
) -> Result<Vec<Gate>, AllocError>
    requires numbers { first + 110 ≤ 2 ^ 64 }
    requires elements { n ≤ 1048576 }
    ensures { IfOk result (λ gates. gates.items ≡ less_plan first left right n) }
{
    let mut gates = Vec::new(alloc);
    gates.push(Gate::Cat { left, right })?;
    let mut bits = bit_extract::plan(alloc, first + 1, first, 2 * n)?;
    gates.append(&mut bits)?;
    push_start(&mut gates, first, n)?;
    let mut less = first + 58;
    let mut same = first + 60;
    let mut next = first + 61;
    for width in WIDTHS {
        push_step(&mut gates, n, next, less, same, width)?;
        less = next + 6;
        same = next + 7;
        next += 8;
    }
    gates.push(Gate::Low { operand: less })?;
    Ok(gates)
}

/// The gates that tell of each two of `n` shared numbers whether the first is less. `left` and `right` are the numbers of the
/// values with the first and the second ones; the gates make the values from number `first` on.
///
/// The last value has 1 exactly where the first number is less than the second, as numbers below 2^64, else 0: the bits of all
/// numbers are extracted at once, and then compared in blocks that double. Memory is the only error.
pub fn plan(
    alloc: Global,
    first: u64,
    left: u64,
    right: u64,
    n: u64,
) -> Result<Vec<Gate>, AllocError>
    requires numbers { first + 110 ≤ 2 ^ 64 }
    requires elements { n ≤ 1048576 }
    ensures gates { IfOk result (λ gates. gates.items ≡ less_plan first left right n) }
    ensures less { IfOk result (λ gates. TellsLess first left right n gates.items) }
    ensures words { IfOk result (λ gates. TakesWords first left right n gates.items) }
{
    gates_of(alloc, first, left, right, n)
}

/// The same gates, and one more that packs what they make: the last value, of number `first + 110`, has a bit for each two numbers, which is
/// 1 exactly where the first is less than the second. They draw the same words. Memory is the only error.
#[tactic(auto, using(crate::proofs::PackedLaws::packs_less_from))]
pub fn packed_plan(
    alloc: Global,
    first: u64,
    left: u64,
    right: u64,
    n: u64,
) -> Result<Vec<Gate>, AllocError>
    requires numbers { first + 111 ≤ 2 ^ 64 }
    requires elements { n ≤ 1048576 }
    ensures gates { IfOk result (λ gates. gates.items ≡ packed_less_plan first left right n) }
    ensures less { IfOk result (λ gates. PacksLess first left right n gates.items) }
    ensures words { IfOk result (λ gates. TakesWords first left right n gates.items) }
{
    let mut gates = gates_of(alloc, first, left, right, n)?;
    gates.push(Gate::Pack {
        operand: first + 109,
    })?;
    Ok(gates)
}

/// The gates of the plan for numbers with a sign.
#[tactic(auto, using(crate::proofs::CompareLaws::pushes))]
fn signed_gates_of(
    alloc: Global,
    first: u64,
    left: u64,
    right: u64,
    n: u64,
) -> Result<Vec<Gate>, AllocError>
    requires numbers { first + 113 ≤ 2 ^ 64 }
    requires elements { n ≤ 1048576 }
    ensures { IfOk result (λ gates. gates.items ≡ signed_less_plan first left right n) }
{
    let list = Words::new(vec![in alloc; HALF; n as usize]?);
    let mut gates = Vec::new(alloc);
    gates.push(Gate::Const { list })?;
    gates.push(Gate::Add { left, right: first })?;
    gates.push(Gate::Add {
        left: right,
        right: first,
    })?;
    let mut comparison = gates_of(alloc, first + 3, first + 1, first + 2, n)?;
    gates.append(&mut comparison)?;
    Ok(gates)
}

/// The gates that tell of each two of `n` shared numbers with a sign whether the first is less. `left` and `right` are the numbers of the
/// values with the first and the second ones; the gates make the values from number `first` on.
///
/// The last value, of number `first + 112`, has 1 exactly where the first number is less than the second, as numbers from -2^63 to 2^63 - 1,
/// else 0: both are raised by 2^63, and then compared as `plan` does. Memory is the only error.
pub fn plan_signed(
    alloc: Global,
    first: u64,
    left: u64,
    right: u64,
    n: u64,
) -> Result<Vec<Gate>, AllocError>
    requires numbers { first + 113 ≤ 2 ^ 64 }
    requires elements { n ≤ 1048576 }
    ensures gates { IfOk result (λ gates. gates.items ≡ signed_less_plan first left right n) }
    ensures less { IfOk result (λ gates. TellsSignedLess first left right n gates.items) }
    ensures words { IfOk result (λ gates. TakesWords first left right n gates.items) }
{
    signed_gates_of(alloc, first, left, right, n)
}

/// The same gates, and one more that packs what they make: the last value, of number `first + 113`, has a bit for each two numbers, which is
/// 1 exactly where the first is less than the second. They draw the same words. Memory is the only error.
pub fn packed_plan_signed(
    alloc: Global,
    first: u64,
    left: u64,
    right: u64,
    n: u64,
) -> Result<Vec<Gate>, AllocError>
    requires numbers { first + 114 ≤ 2 ^ 64 }
    requires elements { n ≤ 1048576 }
    ensures gates { IfOk result (λ gates. gates.items ≡ packed_signed_less_plan first left right n) }
    ensures less { IfOk result (λ gates. PacksSignedLess first left right n gates.items) }
    ensures words { IfOk result (λ gates. TakesWords first left right n gates.items) }
{
    let mut gates = signed_gates_of(alloc, first, left, right, n)?;
    gates.push(Gate::Pack {
        operand: first + 112,
    })?;
    Ok(gates)
}
