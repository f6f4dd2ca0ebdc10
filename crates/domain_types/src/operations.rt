// The rules of operators, `!` and indices, on the types of their operands.
ghost use Rattle.std.specs.Prelude.{◌≡◌, option_map, option_and_then};
ghost use Rattle.domain_types.specs.Types.{of_typed};
ghost use Rattle.domain_types.specs.ExpressionTypes.{uint64_result, int64_result, bool_result, element_result, element_of, is_division};
ghost use Rattle.domain_types.specs.ExpressionTypes.{operator_faults, operator_type, negation_faults, negation_type, index_faults, index_type, of_two};
ghost use Rattle.domain_types.specs.inner.LeastFault.{least};

use crate::fault::{TypeFault, TypeProblem};
use crate::least_fault::note_if;
use crate::rules::{is_number, is_private, meet, mix, scalar};
use crate::value_type::ValueType;
use program_trees::{DataType, Operator};
use sc_text::Span;

fn uint64_result(op: Operator, private_one: bool) -> Option<DataType>
    ensures { result ≡ uint64_result op private_one }
{
    match op {
        Operator::Add
        | Operator::Subtract
        | Operator::Multiply
        | Operator::Divide
        | Operator::Remainder => Some(DataType::Uint64),
        Operator::Equal
        | Operator::NotEqual
        | Operator::Less
        | Operator::LessOrEqual
        | Operator::Greater
        | Operator::GreaterOrEqual => Some(DataType::Bool),
        Operator::And | Operator::Or | Operator::Xor => if private_one {
            None
        } else {
            Some(DataType::Uint64)
        },
        Operator::AndAlso | Operator::OrElse => None,
    }
}

fn int64_result(op: Operator) -> Option<DataType>
    ensures { result ≡ int64_result op }
{
    match op {
        Operator::Add
        | Operator::Subtract
        | Operator::Multiply
        | Operator::Divide
        | Operator::Remainder => Some(DataType::Int64),
        Operator::Equal
        | Operator::NotEqual
        | Operator::Less
        | Operator::LessOrEqual
        | Operator::Greater
        | Operator::GreaterOrEqual => Some(DataType::Bool),
        Operator::And | Operator::Or | Operator::Xor | Operator::AndAlso | Operator::OrElse => None,
    }
}

fn bool_result(op: Operator) -> Option<DataType>
    ensures { result ≡ bool_result op }
{
    match op {
        Operator::Equal
        | Operator::NotEqual
        | Operator::And
        | Operator::Or
        | Operator::Xor
        | Operator::AndAlso
        | Operator::OrElse => Some(DataType::Bool),
        Operator::Add
        | Operator::Subtract
        | Operator::Multiply
        | Operator::Divide
        | Operator::Remainder
        | Operator::Less
        | Operator::LessOrEqual
        | Operator::Greater
        | Operator::GreaterOrEqual => None,
    }
}

fn element_result(op: Operator, private_one: bool, a: DataType, b: DataType) -> Option<DataType>
    ensures { result ≡ element_result op private_one a b }
{
    match (a, b) {
        (DataType::Uint64, DataType::Uint64) => uint64_result(op, private_one),
        (DataType::Int64, DataType::Int64) => int64_result(op),
        (DataType::Bool, DataType::Bool) => bool_result(op),
        _ => None,
    }
}

fn is_division(op: Operator) -> bool
    ensures { result ≡ is_division op }
{
    match op {
        Operator::Divide | Operator::Remainder => true,
        _ => false,
    }
}

// The rule of an operator.
#[tactic(auto, using(crate::proofs::Faults::joins), unfolding(crate::specs::ExpressionTypes::operator_faults, crate::specs::ExpressionTypes::operator_type))]
fn operate(
    least_fault: &mut Option<TypeFault>,
    place: Span,
    op: Operator,
    a: ValueType,
    b: ValueType,
) -> Option<ValueType>
    ensures kind { result ≡ operator_type place op a b }
    ensures least_fault { least_fault.new ≡ least least_fault.old (operator_faults place op a b) }
{
    let private_one = is_private(a.domain) || is_private(b.domain);
    let element = element_result(op, private_one, a.element, b.element);
    note_if(
        least_fault,
        element.is_none(),
        place,
        TypeProblem::TypeMismatch,
    );
    let divides = is_division(op) && private_one;
    note_if(least_fault, divides, place, TypeProblem::PrivateDivision);
    let meets = mix(least_fault, place, a.domain, b.domain);
    if divides || !meets {
        return None;
    }
    let (element, domain) = (element?, meet(a.domain, b.domain)?);
    Some(ValueType {
        domain,
        element,
        array: a.array || b.array,
    })
}

/// The rule of an operator, where both operands have types.
pub fn operation(
    least_fault: &mut Option<TypeFault>,
    place: Span,
    op: Operator,
    a: Option<ValueType>,
    b: Option<ValueType>,
) -> Option<ValueType>
    ensures kind { result ≡ of_two (operator_type place op) a b }
    ensures least_fault { least_fault.new ≡ least least_fault.old (of_typed a (λ t. of_typed b (operator_faults place op t))) }
{
    match (a, b) {
        (Some(a), Some(b)) => operate(least_fault, place, op, a, b),
        _ => None,
    }
}

/// The rule of `!`.
#[tactic(auto, using(crate::proofs::Faults::joins), unfolding(crate::specs::ExpressionTypes::negation_faults, crate::specs::ExpressionTypes::negation_type))]
pub fn negation(
    least_fault: &mut Option<TypeFault>,
    place: Span,
    operand: Option<ValueType>,
) -> Option<ValueType>
    ensures kind { result ≡ option_and_then (negation_type place) operand }
    ensures least_fault { least_fault.new ≡ least least_fault.old (of_typed operand (negation_faults place)) }
{
    let operand = operand?;
    let wrong = is_number(operand.element);
    note_if(least_fault, wrong, place, TypeProblem::TypeMismatch);
    if wrong { None } else { Some(operand) }
}

// The rule of an element of an array, whose index begins at `at`.
#[tactic(auto, using(crate::proofs::Faults::joins), unfolding(crate::specs::ExpressionTypes::index_faults, crate::specs::ExpressionTypes::index_type))]
fn element(
    least_fault: &mut Option<TypeFault>,
    place: Span,
    at: Span,
    array: ValueType,
    position: ValueType,
) -> Option<ValueType>
    ensures kind { result ≡ index_type place at array position }
    ensures least_fault { least_fault.new ≡ least least_fault.old (index_faults place at array position) }
{
    note_if(least_fault, !array.array, place, TypeProblem::TypeMismatch);
    let counts = scalar(
        least_fault,
        DataType::Uint64,
        TypeProblem::PrivateIndex,
        at,
        position,
    );
    if array.array && counts {
        Some(ValueType {
            domain: array.domain,
            element: array.element,
            array: false,
        })
    } else {
        None
    }
}

/// The rule of an element of an array, where both parts have types.
pub fn indexing(
    least_fault: &mut Option<TypeFault>,
    place: Span,
    at: Span,
    array: Option<ValueType>,
    position: Option<ValueType>,
) -> Option<ValueType>
    ensures kind { result ≡ of_two (index_type place at) array position }
    ensures least_fault { least_fault.new ≡ least least_fault.old (of_typed array (λ t. of_typed position (index_faults place at t))) }
{
    match (array, position) {
        (Some(array), Some(position)) => element(least_fault, place, at, array, position),
        _ => None,
    }
}
