// The types of expressions: the checker goes over a tree once, keeps the least fault and what is called.
ghost use Rattle.std.specs.Prelude.{◌≡◌, IfOk, Some, map, option_map, vec_items};
ghost use Rattle.program_trees.specs.Tree.{expression, trees_of};
ghost use Rattle.domain_types.specs.Types.{value_of, void_faults, public_scalar};
ghost use Rattle.domain_types.specs.declared.value_type.ExpressionType.TheVariants.{Void, Value};
ghost use Rattle.domain_types.specs.Scopes.{variable_named};
ghost use Rattle.domain_types.specs.ExpressionTypes.{variable_type, variable_faults, cast_type, declassified};
ghost use Rattle.domain_types.specs.ExpressionTypes.{and_argument, type_of, value_type, arguments_of, faults, value_faults, argument_list_faults};
ghost use Rattle.domain_types.specs.Reached.{calls_of, calls_of_all};
ghost use Rattle.domain_types.specs.Views.{setting};
ghost use Rattle.domain_types.specs.inner.Walks.{Gives};
ghost use Rattle.domain_types.specs.inner.LeastFault.{least};

use crate::call_rule::call;
use crate::calls::Found;
use crate::fault::{TypeFault, TypeProblem};
use crate::least_fault::note;
use crate::operations::{indexing, negation, operation};
use crate::setting::Setting;
use crate::value_type::{Argument, ExpressionType, Protection, ValueType};
use crate::variables::Variables;
use program_trees::{DataType, Expression};
use sc_text::Span;
use std::alloc::AllocError;

/// What an expression that is used as a value gives: a void call there is a fault.
pub fn used(
    least_fault: &mut Option<TypeFault>,
    place: Span,
    given: Option<ExpressionType>,
) -> Option<ValueType>
    ensures kind { result ≡ value_of given }
    ensures least_fault { least_fault.new ≡ least least_fault.old (void_faults place given) }
{
    match given {
        None => None,
        Some(ExpressionType::Void) => {
            note(least_fault, place, TypeProblem::TypeMismatch);
            None
        }
        Some(ExpressionType::Value(value)) => Some(value),
    }
}

/// The variable of a name.
pub fn variable<'p>(
    least_fault: &mut Option<TypeFault>,
    variables: &Variables<'p>,
    place: Span,
    name: &'p str,
) -> Option<ValueType>
    ensures kind { result ≡ variable_type (variable_named variables.now name.now) }
    ensures least_fault { least_fault.new ≡ least least_fault.old (variable_faults place (variable_named variables.now name.now)) }
{
    match variables.find(name) {
        None => {
            note(least_fault, place, TypeProblem::UnknownName);
            None
        }
        Some(held) => held,
    }
}

fn given(value: Option<ValueType>) -> Option<ExpressionType>
    ensures { result ≡ option_map Value value }
{
    match value {
        None => None,
        Some(value) => Some(ExpressionType::Value(value)),
    }
}

fn cast(element: DataType, value: Option<ValueType>) -> Option<ValueType>
    ensures { result ≡ option_map (cast_type element) value }
{
    match value {
        None => None,
        Some(value) => Some(ValueType {
            domain: value.domain,
            element,
            array: value.array,
        }),
    }
}

fn declassified(value: Option<ValueType>) -> Option<ValueType>
    ensures { result ≡ option_map declassified value }
{
    match value {
        None => None,
        Some(value) => Some(ValueType {
            domain: Protection::Public,
            element: value.element,
            array: value.array,
        }),
    }
}

fn published(value: Option<ValueType>) -> Option<ExpressionType>
    ensures { result ≡ option_map (λ t. Void) value }
{
    match value {
        None => None,
        Some(_) => Some(ExpressionType::Void),
    }
}

fn scalar(element: DataType) -> Option<ExpressionType>
    ensures { result ≡ Some (Value (public_scalar element)) }
{
    Some(ExpressionType::Value(ValueType {
        domain: Protection::Public,
        element,
        array: false,
    }))
}

// These arguments and one after them, where each has a type.
fn with_argument(
    types: Option<Vec<Argument>>,
    place: Span,
    value: Option<ValueType>,
) -> Result<Option<Vec<Argument>>, AllocError>
    ensures { IfOk result (λ gs. option_map vec_items gs ≡ and_argument (option_map vec_items types) place value) }
{
    let (Some(mut types), Some(given)) = (types, value) else {
        return Ok(None);
    };
    types.push(Argument { place, given })?;
    Ok(Some(types))
}

/// The type of an expression, if it has one.
#[cycle(expressions)]
#[tactic(auto, using(crate::proofs::Faults::joins))]
pub fn expression<'p>(
    found: &mut Found,
    here: &Setting<'_, 'p>,
    variables: &Variables<'p>,
    e: &'p Expression,
) -> Result<Option<ExpressionType>, AllocError>
    ensures { IfOk result (λ t. Gives (type_of (setting here.now) variables.now (expression e.now)) t found.old found.new
        (faults (setting here.now) variables.now (expression e.now)) (calls_of (setting here.now) variables.now (expression e.now))) }
{
    match e {
        Expression::Number(_, _) => Ok(scalar(DataType::Uint64)),
        Expression::Truth(_, _) => Ok(scalar(DataType::Bool)),
        Expression::Variable(place, name) => Ok(given(variable(
            &mut found.least_fault,
            variables,
            *place,
            name.as_str(),
        ))),
        Expression::Call(place, name, list) => {
            let types = arguments(found, here, variables, list)?;
            call(found, here, *place, name.as_str(), &types)
        }
        Expression::Index(place, array, position) => {
            let held = value(found, here, variables, array)?;
            let counted = value(found, here, variables, position)?;
            let at = position.place();
            Ok(given(indexing(&mut found.least_fault, *place, at, held, counted)))
        }
        Expression::Parentheses(_, inner) => {
            let value = value(found, here, variables, inner)?;
            Ok(given(value))
        }
        Expression::Not(place, operand) => {
            let value = value(found, here, variables, operand)?;
            Ok(given(negation(&mut found.least_fault, *place, value)))
        }
        Expression::Cast(_, element, operand) => {
            let value = value(found, here, variables, operand)?;
            Ok(given(cast(*element, value)))
        }
        Expression::Binary(place, op, left, right) => {
            let a = value(found, here, variables, left)?;
            let b = value(found, here, variables, right)?;
            Ok(given(operation(&mut found.least_fault, *place, *op, a, b)))
        }
        Expression::Declassify(_, operand) => {
            let value = value(found, here, variables, operand)?;
            Ok(given(declassified(value)))
        }
        Expression::Argument(place, _) => {
            note(&mut found.least_fault, *place, TypeProblem::ArgumentPlace);
            Ok(None)
        }
        Expression::Publish(_, _, operand) => {
            let value = value(found, here, variables, operand)?;
            Ok(published(value))
        }
    }
}

/// The value that an expression gives, if it has a type: a void call is a fault.
#[cycle(expressions)]
#[tactic(auto, using(crate::proofs::Faults::joins))]
pub fn value<'p>(
    found: &mut Found,
    here: &Setting<'_, 'p>,
    variables: &Variables<'p>,
    e: &'p Expression,
) -> Result<Option<ValueType>, AllocError>
    ensures { IfOk result (λ t. Gives (value_type (setting here.now) variables.now (expression e.now)) t found.old found.new
        (value_faults (setting here.now) variables.now (expression e.now)) (calls_of (setting here.now) variables.now (expression e.now))) }
{
    let t = expression(found, here, variables, e)?;
    Ok(used(&mut found.least_fault, e.place(), t))
}

// The arguments of a call, where each has a type.
#[cycle(expressions)]
fn arguments<'p>(
    found: &mut Found,
    here: &Setting<'_, 'p>,
    variables: &Variables<'p>,
    list: &'p Vec<Expression>,
) -> Result<Option<Vec<Argument>>, AllocError>
    ensures { IfOk result (λ types. Gives (arguments_of (setting here.now) variables.now (trees_of (map expression list.now.items)))
        (option_map vec_items types) found.old found.new
        (argument_list_faults (setting here.now) variables.now (trees_of (map expression list.now.items)))
        (calls_of_all (setting here.now) variables.now (trees_of (map expression list.now.items)))) }
{
    let mut types = Some(Vec::new(here.alloc));
    for argument in list {
        let given = value(found, here, variables, argument)?;
        types = with_argument(types, argument.place(), given)?;
    }
    Ok(types)
}
