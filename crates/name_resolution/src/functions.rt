// Functions as typed ones.
ghost use Rattle.std.specs.Prelude.{◌≡◌, ◌<◌, length, IfOk, MatchOption, map};
ghost use Rattle.program_trees.specs.Programs.{function_tree};
ghost use Rattle.declarations.specs.Views.{declared, tree_at};
ghost use Rattle.name_resolution.specs.Functions.{variable_number, slot_domain, slot_written, slots_written, given_back, with_parameters};
ghost use Rattle.name_resolution.specs.Functions.{typed_function, typed_functions};
ghost use Rattle.program_trees.specs.TypedPrograms.{typed_function_tree};
ghost use Rattle.name_resolution.specs.Answer.{Answers};
ghost use Rattle.name_resolution.specs.inner.Views.{place_seen, type_at, slots_seen, functions_seen};

use crate::place::FunctionScope;
use crate::resolve_err::ResolveErr;
use crate::sizes::size_of;
use crate::statements::statements;
use crate::values::shape_written;
use declarations::Declarations;
use program_trees::{
    DeclaredType, Domain, DomainVariable, Function, Parameter, ResultType, Returned, Slot,
    SlotDomain, TypedFunction,
};
use std::alloc::{AllocError, Global};

// The number of a domain variable.
fn variable_number(name: &str, variables: &[DomainVariable]) -> Option<usize>
    ensures number { result ≡ variable_number name.now variables.now }
    ensures within { MatchOption result (Unit {0}) (λ k. k < length variables.now) }
{
    match variables.split_first() {
        None => None,
        Some((variable, rest)) => if name == variable.variable.text.as_str() {
            Some(0)
        } else {
            match variable_number(name, rest) {
                None => None,
                Some(number) => Some(number + 1),
            }
        },
    }
}

fn slot_domain<'p>(
    declarations: &Declarations<'p>,
    variables: &'p [DomainVariable],
    domain: &'p Domain,
) -> Option<SlotDomain>
    ensures { result ≡ slot_domain (declared declarations.now) variables.now domain.now }
{
    match domain {
        Domain::Public => Some(SlotDomain::Public),
        Domain::Named(name) => {
            let name = name.text.as_str();
            match variable_number(name, variables) {
                Some(number) => Some(SlotDomain::Variable(number)),
                None => match declarations.domains.number(name) {
                    Some(number) => Some(SlotDomain::Private(number)),
                    None => None,
                },
            }
        }
    }
}

fn slot_written<'p>(
    declarations: &Declarations<'p>,
    variables: &'p [DomainVariable],
    written: &'p DeclaredType,
) -> Option<Slot>
    ensures { result ≡ slot_written (declared declarations.now) variables.now written.now }
{
    match slot_domain(declarations, variables, &written.domain) {
        Some(domain) => Some(Slot {
            domain,
            shape: shape_written(written),
        }),
        None => None,
    }
}

fn slots_written<'p>(
    alloc: Global,
    declarations: &Declarations<'p>,
    variables: &'p [DomainVariable],
    types: &Vec<&'p DeclaredType>,
) -> Result<Vec<Slot>, ResolveErr>
    ensures { Answers slots_seen result (slots_written (declared declarations.now) variables.now (map type_at types.now.items)) }
{
    let mut slots = Vec::new(alloc);
    for each in types {
        match slot_written(declarations, variables, *each) {
            Some(slot) => slots.push(slot)?,
            None => return Err(ResolveErr::Unresolved),
        }
    }
    Ok(slots)
}

fn given_back<'p>(
    declarations: &Declarations<'p>,
    variables: &'p [DomainVariable],
    returned: &'p ResultType,
) -> Result<Returned, ResolveErr>
    ensures { Answers (λ g. g) result (given_back (declared declarations.now) variables.now returned.now) }
{
    match returned {
        ResultType::Void => Ok(Returned::Nothing),
        ResultType::Value(written) => match slot_written(declarations, variables, written) {
            Some(slot) => Ok(Returned::Value(slot)),
            None => Err(ResolveErr::Unresolved),
        },
    }
}

// Declares the parameters, which are the first slots.
fn parameters<'p>(place: &mut FunctionScope<'p>, list: &'p [Parameter]) -> Result<(), AllocError>
    ensures { IfOk result (λ _. place_seen place.new ≡ with_parameters list.now (place_seen place.old)) }
{
    let mut list = list;
    while let Some((parameter, more)) = list.split_first() {
        place.declare(&parameter.variable, &parameter.declared)?;
        list = more;
    }
    Ok(())
}

/// A function of the program as a typed one; calls are numbered by the functions of `declarations`.
pub fn typed_function<'p>(
    alloc: Global,
    declarations: &Declarations<'p>,
    function: &'p Function,
) -> Result<TypedFunction, ResolveErr>
    ensures { Answers typed_function_tree result (typed_function (declared declarations.now) (function_tree function.now)) }
{
    let mut place = FunctionScope::new(alloc);
    parameters(&mut place, &function.parameters)?;
    let body = statements(alloc, declarations, &mut place, &function.body.statements)?;
    let slots = slots_written(alloc, declarations, &function.variables, &place.slots)?;
    let given = given_back(declarations, &function.variables, &function.result)?;
    Ok(TypedFunction {
        name: function.function.text.copy(alloc)?,
        variables: function.variables.len(),
        parameters: function.parameters.len(),
        slots,
        given,
        body,
        size: size_of(function),
    })
}

/// The functions of `declarations` as typed ones, by whose numbers calls name them.
pub fn typed_functions<'p>(
    alloc: Global,
    declarations: &Declarations<'p>,
) -> Result<Vec<TypedFunction>, ResolveErr>
    ensures { Answers functions_seen result (typed_functions (declared declarations.now) (map tree_at declarations.now.functions.items)) }
{
    let mut made = Vec::new(alloc);
    for each in declarations.functions.iter() {
        let next = typed_function(alloc, declarations, *each)?;
        made.push(next)?;
    }
    Ok(made)
}
