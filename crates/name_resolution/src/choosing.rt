// Which operator a sign means on operands of one data type.
ghost use Rattle.std.specs.Prelude.{◌≡◌};
ghost use Rattle.program_trees.specs.Operators.{word_operator, on_ints, int_operator, bool_operator, operator_on, may_cut_short};

use program_trees::{
    BinaryOperator, BoolOperator, Connective, DataType, Operands, Operator, OperatorSign,
};

fn word_operator(sign: Operator) -> Option<OperatorSign>
    ensures { result ≡ word_operator sign }
{
    match sign {
        Operator::Add => Some(OperatorSign::Add),
        Operator::Subtract => Some(OperatorSign::Subtract),
        Operator::Multiply => Some(OperatorSign::Multiply),
        Operator::Divide => Some(OperatorSign::Divide),
        Operator::Remainder => Some(OperatorSign::Remainder),
        Operator::Equal => Some(OperatorSign::Equal),
        Operator::NotEqual => Some(OperatorSign::NotEqual),
        Operator::Less => Some(OperatorSign::Less),
        Operator::LessOrEqual => Some(OperatorSign::LessOrEqual),
        Operator::Greater => Some(OperatorSign::Greater),
        Operator::GreaterOrEqual => Some(OperatorSign::GreaterOrEqual),
        Operator::And => Some(OperatorSign::And),
        Operator::Or => Some(OperatorSign::Or),
        Operator::Xor => Some(OperatorSign::Xor),
        Operator::AndAlso | Operator::OrElse => None,
    }
}

// The sign on numbers that have one, which aren't worked on bit by bit.
fn on_ints(operator: OperatorSign) -> Option<OperatorSign>
    ensures { result ≡ on_ints operator }
{
    match operator {
        OperatorSign::And | OperatorSign::Or | OperatorSign::Xor => None,
        _ => Some(operator),
    }
}

fn int_operator(sign: Operator) -> Option<OperatorSign>
    ensures { result ≡ int_operator sign }
{
    match word_operator(sign) {
        Some(operator) => on_ints(operator),
        None => None,
    }
}

fn bool_operator(sign: Operator) -> Option<BoolOperator>
    ensures { result ≡ bool_operator sign }
{
    match sign {
        Operator::AndAlso => Some(BoolOperator::And),
        Operator::OrElse => Some(BoolOperator::Or),
        _ => match word_operator(sign) {
            Some(operator) => operator.on_bools(),
            None => None,
        },
    }
}

/// The operator that a sign means on operands of these data types, if there is one.
pub fn operator_on(sign: Operator, left: DataType, right: DataType) -> Option<BinaryOperator>
    ensures { result ≡ operator_on sign left right }
{
    match (left, right) {
        (DataType::Uint64, DataType::Uint64) => match word_operator(sign) {
            Some(operator) => Some(BinaryOperator::Words(operator)),
            None => None,
        },
        (DataType::Int64, DataType::Int64) => match int_operator(sign) {
            Some(operator) => Some(BinaryOperator::Ints(operator)),
            None => None,
        },
        (DataType::Bool, DataType::Bool) => match bool_operator(sign) {
            Some(operator) => Some(BinaryOperator::Bools(operator)),
            None => None,
        },
        _ => None,
    }
}

/// Whether a sign means an operator that may cut short: between scalars alone.
pub fn may_cut_short(sign: Operator, operands: Operands) -> Option<Connective>
    ensures { result ≡ may_cut_short sign operands }
{
    match (sign, operands) {
        (Operator::AndAlso, Operands::Scalars) => Some(Connective::AndAlso),
        (Operator::OrElse, Operands::Scalars) => Some(Connective::OrElse),
        _ => None,
    }
}
