// The parts of a `for`, and returns.
ghost use Rattle.std.specs.Prelude.{◌≡◌, ◌++◌, IfOk};
ghost use Rattle.program_trees.specs.Tree.{expression};
ghost use Rattle.program_trees.specs.Statements.{optional, start_tree, step_tree};
ghost use Rattle.domain_types.specs.StatementTypes.{start_faults, after_start, step_faults, is_step_typed, optional_faults};
ghost use Rattle.domain_types.specs.Reached.{optional_calls, start_calls, step_calls};
ghost use Rattle.domain_types.specs.Views.{setting, calls_seen};
ghost use Rattle.domain_types.specs.inner.Given.{optional_type, for_rule, return_rule};
ghost use Rattle.domain_types.specs.inner.LeastFault.{least};

use crate::calls::Found;
use crate::declaring::{assignment, declaration};
use crate::expressions::{expression, value};
use crate::fault::{TypeFault, TypeProblem};
use crate::least_fault::note;
use crate::rules::{scalar, store_typed};
use crate::setting::{Setting, written};
use crate::value_type::ValueType;
use crate::variables::Variables;
use program_trees::{DataType, Expression, ForStart, ForStep, ResultType};
use sc_text::Span;
use std::alloc::AllocError;

/// Checks the first part of a `for`.
pub fn start<'p>(
    found: &mut Found,
    here: &Setting<'_, 'p>,
    variables: &mut Variables<'p>,
    start: &'p ForStart,
) -> Result<(), AllocError>
    ensures least_fault { IfOk result
        (λ _. found.new.least_fault ≡ least found.old.least_fault (start_faults (setting here.now) variables.old (start_tree start.now))) }
    ensures calls { IfOk result (λ _. calls_seen found.new.calls.items ≡
        calls_seen found.old.calls.items ++ start_calls (setting here.now) variables.old (start_tree start.now)) }
    ensures variables { IfOk result (λ _. variables.new ≡ after_start (setting here.now) variables.old (start_tree start.now)) }
{
    match start {
        ForStart::Nothing => Ok(()),
        ForStart::Declaration(d) => declaration(found, here, variables, d),
        ForStart::Assignment(a) => assignment(found, here, variables, a),
    }
}

/// Checks the third part of a `for`; whether it has a type, if it is an expression.
pub fn step<'p>(
    found: &mut Found,
    here: &Setting<'_, 'p>,
    variables: &Variables<'p>,
    step: &'p ForStep,
) -> Result<bool, AllocError>
    ensures typed { IfOk result (λ b. b ≡ is_step_typed (setting here.now) variables.now (step_tree step.now)) }
    ensures least_fault { IfOk result
        (λ _. found.new.least_fault ≡ least found.old.least_fault (step_faults (setting here.now) variables.now (step_tree step.now))) }
    ensures calls { IfOk result (λ _. calls_seen found.new.calls.items ≡
        calls_seen found.old.calls.items ++ step_calls (setting here.now) variables.now (step_tree step.now)) }
{
    match step {
        ForStep::Nothing => Ok(true),
        ForStep::Assignment(a) => {
            assignment(found, here, variables, a)?;
            Ok(true)
        }
        ForStep::Expression(e) => {
            let t = expression(found, here, variables, e)?;
            Ok(t.is_some())
        }
    }
}

/// The value of an expression that may be left out: nothing where it is.
pub fn optional_value<'p>(
    found: &mut Found,
    here: &Setting<'_, 'p>,
    variables: &Variables<'p>,
    e: &'p Option<Expression>,
) -> Result<Option<ValueType>, AllocError>
    ensures kind { IfOk result (λ t. t ≡ optional_type (setting here.now) variables.now (optional e.now)) }
    ensures least_fault { IfOk result
        (λ _. found.new.least_fault ≡ least found.old.least_fault (optional_faults (setting here.now) variables.now (optional e.now))) }
    ensures calls { IfOk result (λ _. calls_seen found.new.calls.items ≡
        calls_seen found.old.calls.items ++ optional_calls (setting here.now) variables.now (optional e.now)) }
{
    match e {
        None => Ok(None),
        Some(e) => value(found, here, variables, e),
    }
}

/// The rule of the condition of a `for`, whose type is given: nothing is said where the third part has no type.
pub fn for_condition(
    least_fault: &mut Option<TypeFault>,
    condition: &Option<Expression>,
    given: Option<ValueType>,
    step_typed: bool,
)
    ensures { least_fault.new ≡ least least_fault.old (for_rule (optional condition.now) given step_typed) }
{
    if let (Some(e), Some(given), true) = (condition, given, step_typed) {
        let _ = scalar(
            least_fault,
            DataType::Bool,
            TypeProblem::PrivateCondition,
            e.place(),
            given,
        );
    }
}

/// The rule of a `return`, whose value has the given type.
pub fn returning<'p>(
    least_fault: &mut Option<TypeFault>,
    here: &Setting<'_, 'p>,
    place: Span,
    value: &Option<Expression>,
    given: Option<ValueType>,
)
    ensures { least_fault.new ≡ least least_fault.old (return_rule (setting here.now) place here.now.function.now.result (optional value.now) given) }
{
    match (&here.function.result, value) {
        (ResultType::Void, None) => {}
        (ResultType::Void, Some(_)) => if given.is_some() {
            note(least_fault, place, TypeProblem::TypeMismatch);
        },
        (ResultType::Value(_), None) => note(least_fault, place, TypeProblem::TypeMismatch),
        (ResultType::Value(declared), Some(e)) => {
            store_typed(least_fault, e.place(), written(here, declared), given);
        }
    }
}
