// The gates that add two words bit by bit, with the carries of blocks that double.
ghost use Rattle.std.specs.Prelude.{◌≡◌, ◌+◌, ◌≤◌, ◌^◌, ◌++◌, OnOk, IfOk};
ghost use Rattle.plans.specs.BitExtract.{bits_plan, carry_step};
ghost use Rattle.plans.specs.BitExtractLaw.{GivesBits, TakesWords};

use gates::Gate;
use std::alloc::{AllocError, Global};

/// How many bits a block has before it is joined with the one below it.
const WIDTHS: [u64; 6] = [1, 2, 4, 8, 16, 32];

/// The gates that join each block of `width` bits with the one below it, in both values at once: `generate` tells whether the
/// block that ends at a bit makes a carry, `propagate` whether it passes one on. They make the values from number `next` on;
/// the new two are those of number `next + 6` and `next + 7`.
#[tactic(auto, using(crate::proofs::BitExtractLaws::pushes))]
fn push_step(
    gates: &mut Vec<Gate>,
    n: u64,
    next: u64,
    generate: u64,
    propagate: u64,
    width: u64,
) -> Result<(), AllocError>
    requires { next + 8 ≤ 2 ^ 64 }
    ensures { OnOk result (gates.new.items ≡ gates.old.items ++ carry_step n next generate propagate width) }
{
    gates.push(Gate::Cat {
        left: propagate,
        right: propagate,
    })?;
    gates.push(Gate::Shl {
        operand: generate,
        count: width,
    })?;
    gates.push(Gate::Shl {
        operand: propagate,
        count: width,
    })?;
    gates.push(Gate::Cat {
        left: next + 1,
        right: next + 2,
    })?;
    gates.push(Gate::And {
        left: next,
        right: next + 3,
    })?;
    gates.push(Gate::Part {
        operand: next + 4,
        from: 0,
        count: n,
    })?;
    gates.push(Gate::Xor {
        left: generate,
        right: next + 5,
    })?;
    gates.push(Gate::Part {
        operand: next + 4,
        from: n,
        count: n,
    })?;
    Ok(())
}

/// The gates of the plan.
fn gates_of(alloc: Global, first: u64, word: u64, n: u64) -> Result<Vec<Gate>, AllocError>
    requires { first + 54 ≤ 2 ^ 64 }
    ensures { IfOk result (λ gates. gates.items ≡ bits_plan first word n) }
{
    let sum = first + 3;
    let mut generate = first + 2;
    let mut propagate = sum;
    let mut next = first + 4;
    let mut gates = Vec::new(alloc);
    gates.push(Gate::Split {
        operand: word,
        negated: false,
    })?;
    gates.push(Gate::And {
        left: first,
        right: first + 1,
    })?;
    gates.push(Gate::Xor {
        left: first,
        right: first + 1,
    })?;
    for width in WIDTHS {
        push_step(&mut gates, n, next, generate, propagate, width)?;
        generate = next + 6;
        propagate = next + 7;
        next += 8;
    }
    gates.push(Gate::Shl {
        operand: generate,
        count: 1,
    })?;
    gates.push(Gate::Xor {
        left: sum,
        right: next,
    })?;
    Ok(gates)
}

/// The gates that turn `n` shared numbers into their bits. `word` is the number of the value with the numbers; the gates make
/// the values from number `first` on.
///
/// The last value has the same words as `word`, shared by xor and so bit by bit: each is split into two words that add up to
/// it, and these are added with a prefix adder (J. Sklansky, "Conditional-sum addition logic", 1960; P. Kogge and H. Stone, "A
/// parallel algorithm for the efficient solution of a general class of recurrence equations", 1973). Memory is the only error.
#[tactic(auto, using(crate::proofs::BitExtractLaws::gives_bits_from, crate::proofs::BitExtractLaws::takes_words_from))]
pub fn plan(alloc: Global, first: u64, word: u64, n: u64) -> Result<Vec<Gate>, AllocError>
    requires numbers { first + 54 ≤ 2 ^ 64 }
    requires elements { n ≤ 2097152 }
    ensures gates { IfOk result (λ gates. gates.items ≡ bits_plan first word n) }
    ensures bits { IfOk result (λ gates. GivesBits first word n gates.items) }
    ensures words { IfOk result (λ gates. TakesWords first word n gates.items) }
{
    gates_of(alloc, first, word, n)
}
