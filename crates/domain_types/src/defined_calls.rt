// The rule of a call of a function of the program, on the types of its arguments.
ghost use Rattle.std.specs.Prelude.{◌≡◌, IfOk, option_map, vec_items};
ghost use Rattle.program_trees.specs.Programs.{function_tree};
ghost use Rattle.domain_types.specs.Types.{is_without, of_typed, unless_refused};
ghost use Rattle.domain_types.specs.Settings.{type_written};
ghost use Rattle.declarations.specs.Views.{declared};
ghost use Rattle.domain_types.specs.Views.{setting};
ghost use Rattle.domain_types.specs.ExpressionTypes.{is_named, bound_from, bound_by, bound_faults, binding_faults, binding_by, argument_faults};
ghost use Rattle.domain_types.specs.ExpressionTypes.{defined_faults, within, result_type};
ghost use Rattle.domain_types.specs.inner.LeastFault.{least};

use crate::fault::{TypeFault, TypeProblem};
use crate::least_fault::note;
use crate::rules::{meet, store};
use crate::setting::{Setting, written};
use crate::value_type::{Argument, ExpressionType, Protection};
use program_trees::{Domain, DomainVariable, Function, Identifier, Parameter, ResultType};
use sc_text::Span;
use std::alloc::{AllocError, Global};

// Whether a domain is written with this name.
pub fn is_named(name: &str, domain: &Domain) -> bool
    ensures { result ≡ is_named name.now domain.now }
{
    match domain {
        Domain::Public => false,
        Domain::Named(written) => name == written.text.as_str(),
    }
}

// What a call binds a domain variable to.
fn bound_by(name: &str, parameters: &[Parameter], arguments: &[Argument]) -> Option<Protection>
    ensures { result ≡ bound_by name.now parameters.now arguments.now }
{
    let mut domain = Protection::Public;
    let mut parameters = parameters;
    let mut arguments = arguments;
    while let (Some((parameter, more)), Some((argument, others))) = (
        parameters.split_first(),
        arguments.split_first(),
    ) {
        if is_named(name, &parameter.declared.domain) {
            match meet(domain, argument.given.domain) {
                Some(both) => domain = both,
                None => return None,
            }
        }
        parameters = more;
        arguments = others;
    }
    Some(domain)
}

// A domain variable may be bound so.
fn may_be_bound(
    least_fault: &mut Option<TypeFault>,
    place: Span,
    kind: &Option<Identifier>,
    domain: Option<Protection>,
) -> bool
    ensures fits { result ≡ is_without (bound_faults place kind.now domain) }
    ensures least_fault { least_fault.new ≡ least least_fault.old (bound_faults place kind.now domain) }
{
    match (kind, domain) {
        (_, None) => {
            note(least_fault, place, TypeProblem::DomainMix);
            false
        }
        (Some(_), Some(Protection::Public)) => {
            note(least_fault, place, TypeProblem::TypeMismatch);
            false
        }
        _ => true,
    }
}

// The domain variables may be bound as the arguments bind them.
#[tactic(auto, using(crate::proofs::Faults::joins))]
fn may_all_be_bound(
    least_fault: &mut Option<TypeFault>,
    place: Span,
    variables: &[DomainVariable],
    parameters: &[Parameter],
    arguments: &[Argument],
) -> bool
    ensures fits { result ≡ is_without (binding_faults place variables.now parameters.now arguments.now) }
    ensures least_fault { least_fault.new ≡ least least_fault.old (binding_faults place variables.now parameters.now arguments.now) }
{
    let mut fits = true;
    let mut variables = variables;
    while let Some((variable, more)) = variables.split_first() {
        let domain = bound_by(variable.variable.text.as_str(), parameters, arguments);
        let good = may_be_bound(least_fault, place, &variable.kind, domain);
        fits = fits && good;
        variables = more;
    }
    fits
}

// The domains that the arguments bind the domain variables to.
#[tactic(auto, using(crate::proofs::Bindings::bindings))]
fn binding(
    alloc: Global,
    variables: &[DomainVariable],
    parameters: &[Parameter],
    arguments: &[Argument],
) -> Result<Option<Vec<Protection>>, AllocError>
    ensures { IfOk result (λ ds. option_map vec_items ds ≡ binding_by variables.now parameters.now arguments.now) }
{
    let mut domains = Vec::new(alloc);
    let mut variables = variables;
    while let Some((variable, more)) = variables.split_first() {
        match bound_by(variable.variable.text.as_str(), parameters, arguments) {
            Some(domain) => domains.push(domain)?,
            None => return Ok(None),
        }
        variables = more;
    }
    Ok(Some(domains))
}

// Each argument goes to its parameter.
#[tactic(auto, using(crate::proofs::Faults::joins))]
fn arguments_fit<'p>(
    least_fault: &mut Option<TypeFault>,
    callee: &Setting<'_, 'p>,
    parameters: &'p [Parameter],
    arguments: &[Argument],
) -> bool
    ensures fits { result ≡ is_without (argument_faults (setting callee.now) parameters.now arguments.now) }
    ensures least_fault { least_fault.new ≡ least least_fault.old (argument_faults (setting callee.now) parameters.now arguments.now) }
{
    let mut fits = true;
    let mut parameters = parameters;
    let mut arguments = arguments;
    while let (Some((parameter, more)), Some((argument, others))) = (
        parameters.split_first(),
        arguments.split_first(),
    ) {
        if let Some(wanted) = written(callee, &parameter.declared) {
            let good = store(least_fault, argument.place, wanted, argument.given);
            fits = fits && good;
        }
        parameters = more;
        arguments = others;
    }
    fits
}

/// The rule of a call of a function of the program: the domains of its domain variables, where the call is not refused.
#[tactic(auto, using(crate::proofs::Faults::joins), unfolding(crate::specs::ExpressionTypes::defined_faults))]
pub fn defined_call<'p>(
    least_fault: &mut Option<TypeFault>,
    here: &Setting<'_, 'p>,
    place: Span,
    function: &'p Function,
    arguments: &[Argument],
) -> Result<Option<Vec<Protection>>, AllocError>
    ensures binding { IfOk result (λ ds. option_map vec_items ds ≡
        unless_refused (defined_faults (declared here.now.declarations.now) place (function_tree function.now) arguments.now)
        (binding_by function.now.variables.items function.now.parameters.items arguments.now)) }
    ensures least_fault { IfOk result (λ _. least_fault.new ≡
        least least_fault.old (defined_faults (declared here.now.declarations.now) place (function_tree function.now) arguments.now)) }
{
    if function.parameters.len() != arguments.len() {
        note(least_fault, place, TypeProblem::BadArity);
        return Ok(None);
    }
    let bound = may_all_be_bound(
        least_fault,
        place,
        &function.variables,
        &function.parameters,
        arguments,
    );
    let domains = binding(
        here.alloc,
        &function.variables,
        &function.parameters,
        arguments,
    )?;
    let Some(domains) = domains else {
        return Ok(None);
    };
    let callee = Setting {
        alloc: here.alloc,
        declarations: here.declarations,
        function,
        binding: &domains,
    };
    let fits = arguments_fit(least_fault, &callee, &function.parameters, arguments);
    if bound && fits {
        Ok(Some(domains))
    } else {
        Ok(None)
    }
}

/// What a function gives back, if its domain is known.
pub fn result_type<'p>(here: &Setting<'_, 'p>, returned: &'p ResultType) -> Option<ExpressionType>
    ensures { result ≡ result_type (setting here.now) returned.now }
{
    match returned {
        ResultType::Void => Some(ExpressionType::Void),
        ResultType::Value(declared) => match written(here, declared) {
            Some(given) => Some(ExpressionType::Value(given)),
            None => None,
        },
    }
}
