// Which operators there are between operands of these kinds, and what they give.
ghost use Rattle.std.specs.Prelude.{◌≡◌};
ghost use Rattle.bytecode.specs.InMemory.{operator_byte};
ghost use Rattle.verified_code.specs.Fitting.{binary_fits, has_ints, is_hidden_sign, kind_at, may_be_private, operator_at, operator_exists, secrecy_fits};

use crate::kinds::{kind_at, same_element, same_kind};
use bytecode::{Kind, Register};
use program_trees::{BinaryOperator, BoolOperator, DataType, OperatorSign};

/// The operator of a sign between operands of a data type. Numbers with a sign and bools have only some; for another sign it is one that
/// no test looks at.
#[tactic(auto, using(crate::proofs::Bytes::sign_back))]
pub(crate) fn operator_on(element: DataType, sign: OperatorSign) -> BinaryOperator
    ensures { result ≡ operator_at element (operator_byte sign) }
{
    match element {
        DataType::Uint64 => BinaryOperator::Words(sign),
        DataType::Int64 => BinaryOperator::Ints(sign),
        DataType::Bool => BinaryOperator::Bools(sign.on_bools().unwrap_or(BoolOperator::Xor)),
    }
}

/// Whether numbers with a sign have the operator of this sign.
#[tactic(auto, using(crate::proofs::Bytes::sign_back, crate::proofs::Bytes::byte_low))]
fn has_ints(sign: OperatorSign) -> bool
    ensures { result ≡ has_ints (operator_byte sign) }
{
    !matches!(
        sign,
        OperatorSign::And | OperatorSign::Or | OperatorSign::Xor
    )
}

#[tactic(auto, using(crate::proofs::Bytes::sign_back, crate::proofs::Bytes::byte_low))]
fn operator_exists(element: DataType, sign: OperatorSign) -> bool
    ensures { result ≡ operator_exists element (operator_byte sign) }
{
    match element {
        DataType::Uint64 => true,
        DataType::Int64 => has_ints(sign),
        DataType::Bool => sign.on_bools().is_some(),
    }
}

/// Whether private numbers have the operator of this sign.
fn is_hidden_sign(sign: OperatorSign) -> bool
    ensures { result ≡ is_hidden_sign sign }
{
    !matches!(
        sign,
        OperatorSign::Divide
            | OperatorSign::Remainder
            | OperatorSign::And
            | OperatorSign::Or
            | OperatorSign::Xor
    )
}

fn may_be_private(operator: BinaryOperator) -> bool
    ensures { result ≡ may_be_private operator }
{
    match operator {
        BinaryOperator::Words(sign) | BinaryOperator::Ints(sign) => is_hidden_sign(sign),
        BinaryOperator::Bools(_) => true,
    }
}

fn secrecy_fits(operator: BinaryOperator, left: bool, right: bool) -> bool
    ensures { result ≡ secrecy_fits operator left right }
{
    (left == right || operator.is_product()) && (!(left || right) || may_be_private(operator))
}

pub(crate) fn binary_fits(
    kinds: &[Kind],
    sign: OperatorSign,
    to: Register,
    left: Register,
    right: Register,
) -> bool
    ensures { result ≡ binary_fits (operator_byte sign) (kind_at kinds.now to.0) (kind_at kinds.now left.0) (kind_at kinds.now right.0) }
{
    let to = kind_at(kinds, to);
    let left = kind_at(kinds, left);
    let right = kind_at(kinds, right);
    let operator = operator_on(left.element, sign);
    let made = Kind {
        secret: left.secret || right.secret,
        element: operator.result(),
        array: left.array || right.array,
    };
    same_element(left.element, right.element)
        && operator_exists(left.element, sign)
        && secrecy_fits(operator, left.secret, right.secret)
        && same_kind(to, made)
}
