// Operators between two words.
ghost use Rattle.std.specs.Prelude.{◌≡◌, ◌≢◌, ◌/◌, ◌%◌};
ghost use Rattle.program_trees.specs.declared.operators.BinaryOperator.TheVariants.{Bools, Ints, Words};
ghost use Rattle.signed_words.specs.Signed.{signed_quotient, signed_remainder};
ghost use Rattle.language_model.specs.Words.{truth_word, flipped, meaning};

use program_trees::{BinaryOperator, BoolOperator, OperatorSign};

/// The quotient, and 0 for a divisor of 0.
fn quotient(x: u64, divisor: u64) -> u64
    ensures { result ≡ x / divisor }
{
    if divisor == 0 { 0 } else { x / divisor }
}

/// What is left of a division, and `x` itself for a divisor of 0.
fn remainder(x: u64, divisor: u64) -> u64
    ensures { result ≡ x % divisor }
{
    if divisor == 0 { x } else { x % divisor }
}

/// The quotient of words as numbers with a sign, towards 0, and 0 for a divisor of 0.
fn signed_quotient(x: u64, divisor: u64) -> u64
    ensures { result ≡ signed_quotient x divisor }
{
    if divisor == 0 {
        0
    } else {
        signed_words::quotient(x, divisor)
    }
}

/// What is left of such a division, with the dividend's sign, and `x` itself for a divisor of 0.
fn signed_remainder(x: u64, divisor: u64) -> u64
    ensures { result ≡ signed_remainder x divisor }
{
    if divisor == 0 {
        x
    } else {
        signed_words::remainder(x, divisor)
    }
}

/// 1 for true and 0 for false.
pub(crate) fn truth(holds: bool) -> u64
    ensures { result ≡ truth_word holds }
{
    if holds { 1 } else { 0 }
}

/// The result of an operator on words. Sums, differences and products wrap at 2^64, and a comparison gives 1 or 0. A divisor of 0
/// gives the quotient 0 and leaves the dividend as the remainder: `may_divide` tells whether there is one.
pub fn word_operation(op: OperatorSign, x: u64, y: u64) -> u64
    ensures { result ≡ meaning (Words op) x y }
{
    match op {
        OperatorSign::Add => x.wrapping_add(y),
        OperatorSign::Subtract => x.wrapping_sub(y),
        OperatorSign::Multiply => x.wrapping_mul(y),
        OperatorSign::Divide => quotient(x, y),
        OperatorSign::Remainder => remainder(x, y),
        OperatorSign::Equal => truth(x == y),
        OperatorSign::NotEqual => truth(x != y),
        OperatorSign::Less => truth(x < y),
        OperatorSign::LessOrEqual => truth(x <= y),
        OperatorSign::Greater => truth(x > y),
        OperatorSign::GreaterOrEqual => truth(x >= y),
        OperatorSign::And => x & y,
        OperatorSign::Or => x | y,
        OperatorSign::Xor => x ^ y,
    }
}

/// A truth value turned round: 1 for 0, and 0 for any other word.
pub(crate) fn flip(x: u64) -> u64
    ensures { result ≡ flipped x }
{
    truth(x == 0)
}

/// The result of an operator on words as numbers with a sign. Sums, differences and products wrap as those of words do; a quotient goes
/// towards 0, and what is left of it has the dividend's sign. A divisor of 0 gives what it gives on words.
pub fn signed_operation(op: OperatorSign, x: u64, y: u64) -> u64
    ensures { result ≡ meaning (Ints op) x y }
{
    match op {
        OperatorSign::Divide => signed_quotient(x, y),
        OperatorSign::Remainder => signed_remainder(x, y),
        OperatorSign::Less => signed_words::less(x, y),
        OperatorSign::LessOrEqual => flip(signed_words::less(y, x)),
        OperatorSign::Greater => signed_words::less(y, x),
        OperatorSign::GreaterOrEqual => flip(signed_words::less(x, y)),
        OperatorSign::Add
        | OperatorSign::Subtract
        | OperatorSign::Multiply
        | OperatorSign::Equal
        | OperatorSign::NotEqual
        | OperatorSign::And
        | OperatorSign::Or
        | OperatorSign::Xor => word_operation(op, x, y),
    }
}

/// The result of an operator on truth values. Other words count by their bits.
pub fn truth_operation(op: BoolOperator, x: u64, y: u64) -> u64
    ensures { result ≡ meaning (Bools op) x y }
{
    match op {
        BoolOperator::Equal => truth(x == y),
        BoolOperator::NotEqual => truth(x != y),
        BoolOperator::And => x & y,
        BoolOperator::Or => x | y,
        BoolOperator::Xor => x ^ y,
    }
}

/// The result of an operator.
pub fn operation(op: BinaryOperator, x: u64, y: u64) -> u64
    ensures { result ≡ meaning op x y }
{
    match op {
        BinaryOperator::Words(op) => word_operation(op, x, y),
        BinaryOperator::Ints(op) => signed_operation(op, x, y),
        BinaryOperator::Bools(op) => truth_operation(op, x, y),
    }
}
