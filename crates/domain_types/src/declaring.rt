// The rules of declarations and assignments.
ghost use Rattle.std.specs.Prelude.{◌≡◌, ◌++◌, IfOk, Some, None};
ghost use Rattle.program_trees.specs.Tree.{expression};
ghost use Rattle.program_trees.specs.Statements.{optional, declaration_tree, target_tree, assignment_tree};
ghost use Rattle.domain_types.specs.Types.{of_typed};
ghost use Rattle.domain_types.specs.Scopes.{twice_faults, with_variable};
ghost use Rattle.domain_types.specs.StatementTypes.{domain_faults, is_argument, sized_faults, filled_faults, initial_faults, declared_faults};
ghost use Rattle.domain_types.specs.StatementTypes.{declaration_faults, variable_declared, target_type, target_faults, assignment_faults};
ghost use Rattle.domain_types.specs.Reached.{calls_of, optional_calls, declaration_calls, assignment_calls};
ghost use Rattle.domain_types.specs.Views.{setting, calls_seen};
ghost use Rattle.domain_types.specs.inner.LeastFault.{least};

use crate::calls::Found;
use crate::expressions::{value, variable};
use crate::fault::{TypeFault, TypeProblem};
use crate::least_fault::note_if;
use crate::operations::indexing;
use crate::rules::{scalar, store, store_typed};
use crate::setting::{Setting, domain, written};
use crate::value_type::ValueType;
use crate::variables::Variables;
use program_trees::{
    Assignment, DataType, Declaration, DeclaredType, Domain, Expression, Identifier, Target,
};
use sc_text::Span;
use std::alloc::AllocError;

/// The name of a domain is known.
pub fn known<'p>(least_fault: &mut Option<TypeFault>, here: &Setting<'_, 'p>, written: &'p Domain)
    ensures { least_fault.new ≡ least least_fault.old (domain_faults (setting here.now) written.now) }
{
    match written {
        Domain::Public => {}
        Domain::Named(name) => {
            note_if(
                least_fault,
                domain(here, written).is_none(),
                name.place,
                TypeProblem::UnknownName,
            );
        }
    }
}

/// The name of a variable is new in the innermost block.
pub fn is_new<'p>(
    least_fault: &mut Option<TypeFault>,
    variables: &Variables<'p>,
    name: &'p Identifier,
)
    ensures { least_fault.new ≡ least least_fault.old (twice_faults variables.now name.now) }
{
    note_if(
        least_fault,
        variables.declares(name.text.as_str()),
        name.place,
        TypeProblem::Twice,
    );
}

fn is_argument(e: &Expression) -> bool
    ensures { result ≡ is_argument (expression e.now) }
{
    match e {
        Expression::Argument(_, _) => true,
        _ => false,
    }
}

// The size of an array of this type, where both have types.
#[tactic(auto, using(crate::proofs::Faults::joins), unfolding(crate::specs::StatementTypes::sized_faults))]
fn sized(
    least_fault: &mut Option<TypeFault>,
    place: Span,
    declared: Option<ValueType>,
    size: Option<ValueType>,
)
    ensures { least_fault.new ≡ least least_fault.old (of_typed declared (λ t. of_typed size (sized_faults place t))) }
{
    if let (Some(declared), Some(size)) = (declared, size) {
        note_if(
            least_fault,
            !declared.array,
            place,
            TypeProblem::TypeMismatch,
        );
        let _ = scalar(
            least_fault,
            DataType::Uint64,
            TypeProblem::PrivateSize,
            place,
            size,
        );
    }
}

// The size of an array of this type, and the scalar that fills it.
#[tactic(auto, using(crate::proofs::Faults::joins), unfolding(crate::specs::StatementTypes::filled_faults))]
fn fill(
    least_fault: &mut Option<TypeFault>,
    size_place: Span,
    place: Span,
    declared: ValueType,
    size: ValueType,
    value: ValueType,
)
    ensures { least_fault.new ≡ least least_fault.old (filled_faults size_place place declared size value) }
{
    sized(least_fault, size_place, Some(declared), Some(size));
    let wanted = ValueType {
        domain: declared.domain,
        element: declared.element,
        array: false,
    };
    let _ = store(least_fault, place, wanted, value);
}

// The size of an array of this type, and the scalar that fills it, where all have types.
fn filled(
    least_fault: &mut Option<TypeFault>,
    size_place: Span,
    place: Span,
    declared: Option<ValueType>,
    size: Option<ValueType>,
    value: Option<ValueType>,
)
    ensures { least_fault.new ≡ least least_fault.old
        (of_typed declared (λ t. of_typed size (λ n. of_typed value (filled_faults size_place place t n)))) }
{
    if let (Some(declared), Some(size), Some(value)) = (declared, size, value) {
        fill(least_fault, size_place, place, declared, size, value);
    }
}

// The initialiser of a variable of the declared type, without a size: it may be an argument, which has that type.
#[tactic(auto, using(crate::proofs::Faults::joins))]
fn first_value<'p>(
    found: &mut Found,
    here: &Setting<'_, 'p>,
    variables: &Variables<'p>,
    declared: Option<ValueType>,
    e: &'p Expression,
) -> Result<(), AllocError>
    ensures least_fault { IfOk result (λ _. found.new.least_fault ≡ least found.old.least_fault
        (initial_faults (setting here.now) variables.now None (Some (expression e.now))
        ++ of_typed declared (λ t. declared_faults (setting here.now) variables.now t None (Some (expression e.now))))) }
    ensures calls { IfOk result (λ _. calls_seen found.new.calls.items ≡
        calls_seen found.old.calls.items ++ calls_of (setting here.now) variables.now (expression e.now)) }
{
    if is_argument(e) {
        return Ok(());
    }
    let given = value(found, here, variables, e)?;
    store_typed(&mut found.least_fault, e.place(), declared, given);
    Ok(())
}

// The size and the initialiser of a variable of the declared type.
#[tactic(auto, using(crate::proofs::Faults::joins))]
fn initial<'p>(
    found: &mut Found,
    here: &Setting<'_, 'p>,
    variables: &Variables<'p>,
    declared: Option<ValueType>,
    declaration: &'p Declaration,
) -> Result<(), AllocError>
    ensures least_fault { IfOk result (λ _. found.new.least_fault ≡ least found.old.least_fault
        (initial_faults (setting here.now) variables.now (declaration_tree declaration.now).size (declaration_tree declaration.now).value
        ++ of_typed declared (λ t. declared_faults (setting here.now) variables.now t
        (declaration_tree declaration.now).size (declaration_tree declaration.now).value))) }
    ensures calls { IfOk result (λ _. calls_seen found.new.calls.items ≡
        calls_seen found.old.calls.items ++ declaration_calls (setting here.now) variables.now (declaration_tree declaration.now)) }
{
    match (&declaration.size, &declaration.value) {
        (None, None) => Ok(()),
        (None, Some(e)) => first_value(found, here, variables, declared, e),
        (Some(size), None) => {
            let counted = value(found, here, variables, size)?;
            sized(&mut found.least_fault, size.place(), declared, counted);
            Ok(())
        }
        (Some(size), Some(e)) => {
            let counted = value(found, here, variables, size)?;
            let given = value(found, here, variables, e)?;
            filled(
                &mut found.least_fault,
                size.place(),
                e.place(),
                declared,
                counted,
                given,
            );
            Ok(())
        }
    }
}

/// Declares a variable, and checks its declaration.
#[tactic(auto, using(crate::proofs::Faults::joins))]
pub fn declaration<'p>(
    found: &mut Found,
    here: &Setting<'_, 'p>,
    variables: &mut Variables<'p>,
    declaration: &'p Declaration,
) -> Result<(), AllocError>
    ensures least_fault { IfOk result (λ _. found.new.least_fault ≡ least found.old.least_fault
        (declaration_faults (setting here.now) variables.old (declaration_tree declaration.now))) }
    ensures calls { IfOk result (λ _. calls_seen found.new.calls.items ≡
        calls_seen found.old.calls.items ++ declaration_calls (setting here.now) variables.old (declaration_tree declaration.now)) }
    ensures variables { IfOk result (λ _. variables.new ≡
        with_variable (variable_declared (setting here.now) (declaration_tree declaration.now)) variables.old) }
{
    known(&mut found.least_fault, here, &declaration.declared.domain);
    is_new(&mut found.least_fault, variables, &declaration.variable);
    let declared = written(here, &declaration.declared);
    initial(found, here, variables, declared, declaration)?;
    variables.declare(declaration.variable.text.as_str(), declared)
}

// What is assigned to.
#[tactic(auto, using(crate::proofs::Faults::joins))]
fn target<'p>(
    found: &mut Found,
    here: &Setting<'_, 'p>,
    variables: &Variables<'p>,
    target: &'p Target,
) -> Result<Option<ValueType>, AllocError>
    ensures kind { IfOk result (λ t. t ≡ target_type (setting here.now) variables.now (target_tree target.now)) }
    ensures least_fault { IfOk result (λ _. found.new.least_fault ≡ least found.old.least_fault
        (target_faults (setting here.now) variables.now (target_tree target.now))) }
    ensures calls { IfOk result (λ _. calls_seen found.new.calls.items ≡
        calls_seen found.old.calls.items ++ optional_calls (setting here.now) variables.now (optional target.now.index)) }
{
    let place = target.variable.place;
    let held = variable(
        &mut found.least_fault,
        variables,
        place,
        target.variable.text.as_str(),
    );
    match &target.index {
        None => Ok(held),
        Some(position) => {
            let counted = value(found, here, variables, position)?;
            Ok(indexing(
                &mut found.least_fault,
                place,
                position.place(),
                held,
                counted,
            ))
        }
    }
}

/// Checks an assignment.
#[tactic(auto, using(crate::proofs::Faults::joins))]
pub fn assignment<'p>(
    found: &mut Found,
    here: &Setting<'_, 'p>,
    variables: &Variables<'p>,
    assignment: &'p Assignment,
) -> Result<(), AllocError>
    ensures least_fault { IfOk result (λ _. found.new.least_fault ≡ least found.old.least_fault
        (assignment_faults (setting here.now) variables.now (assignment_tree assignment.now))) }
    ensures calls { IfOk result (λ _. calls_seen found.new.calls.items ≡
        calls_seen found.old.calls.items ++ assignment_calls (setting here.now) variables.now (assignment_tree assignment.now)) }
{
    let wanted = target(found, here, variables, &assignment.target)?;
    let given = value(found, here, variables, &assignment.value)?;
    store_typed(
        &mut found.least_fault,
        assignment.value.place(),
        wanted,
        given,
    );
    Ok(())
}
