// Operators on lists of words, index by index.
ghost use Rattle.std.specs.Prelude.{◌≡◌, ◌==◌, length, replicate, IfOk};
ghost use Rattle.std.specs.List.{list_any};
ghost use Rattle.gates.specs.Clear.{each_two};
ghost use Rattle.language_model.specs.Words.{meaning, may_divide};

use crate::operators::operation;
use program_trees::{BinaryOperator, OperatorSign};
use std::alloc::{AllocError, Global};

/// The results of an operator on the two words at each index, as far as the shorter list goes.
pub fn each(
    alloc: Global,
    op: BinaryOperator,
    xs: &[u64],
    ys: &[u64],
) -> Result<Vec<u64>, AllocError>
    ensures { IfOk result (λ words. words.items ≡ each_two (meaning op) xs.now ys.now) }
{
    xs.iter()
        .zip(ys)
        .map(|(x, y)| operation(op, *x, *y))
        .collect(alloc)
}

/// The results of an operator on one word and each of a list.
pub fn scalar_and_each(
    alloc: Global,
    op: BinaryOperator,
    x: u64,
    ys: &[u64],
) -> Result<Vec<u64>, AllocError>
    ensures { IfOk result (λ words. words.items ≡ each_two (meaning op) (replicate (length ys.now) x) ys.now) }
{
    ys.iter().map(|y| operation(op, x, *y)).collect(alloc)
}

/// The results of an operator on each word of a list and one more.
pub fn each_and_scalar(
    alloc: Global,
    op: BinaryOperator,
    xs: &[u64],
    y: u64,
) -> Result<Vec<u64>, AllocError>
    ensures { IfOk result (λ words. words.items ≡ each_two (meaning op) xs.now (replicate (length xs.now) y)) }
{
    xs.iter().map(|x| operation(op, *x, y)).collect(alloc)
}

/// Whether a word is 0.
fn has_zero(words: &[u64]) -> bool
    ensures { result ≡ list_any (λ x. x == 0) words.now }
{
    words.iter().any(|x| *x == 0)
}

/// Whether an operator has a result for these right operands: a quotient and a remainder have none where a divisor is 0.
pub fn may_divide(op: BinaryOperator, divisors: &[u64]) -> bool
    ensures { result ≡ may_divide op divisors.now }
{
    match op {
        BinaryOperator::Words(OperatorSign::Divide | OperatorSign::Remainder)
        | BinaryOperator::Ints(OperatorSign::Divide | OperatorSign::Remainder) => {
            !has_zero(divisors)
        }
        _ => true,
    }
}
