ghost use Rattle.std.specs.Prelude.{◌≡◌};
ghost use Rattle.domain_types.specs.Settings.{bind, bound_to, domain_of, type_written};
ghost use Rattle.domain_types.specs.Views.{setting};

use crate::value_type::{Protection, ValueType};
use declarations::Declarations;
use program_trees::{DeclaredType, Domain, DomainVariable, Function};
use std::alloc::Global;

/// Where a piece of a program stands: in a function whose domain variables are bound. What is found there is kept in memory from
/// `alloc`.
#[derive(Clone, Copy)]
pub struct Setting<'a, 'p> {
    pub alloc: Global,
    pub declarations: &'a Declarations<'p>,
    pub function: &'p Function,
    /// The domain of each of the function's domain variables.
    pub binding: &'a [Protection],
}

// What a domain variable of this name is bound to, if there is one.
fn bound(name: &str, variables: &[DomainVariable], binding: &[Protection]) -> Option<Protection>
    ensures { result ≡ bound_to name.now (bind variables.now binding.now) }
{
    match (variables.split_first(), binding.split_first()) {
        (Some((variable, variables)), Some((domain, binding))) => if name
            == variable.variable.text.as_str()
        {
            Some(*domain)
        } else {
            bound(name, variables, binding)
        },
        _ => None,
    }
}

/// The domain that is written, if its name is known.
pub fn domain<'p>(here: &Setting<'_, 'p>, domain: &'p Domain) -> Option<Protection>
    ensures { result ≡ domain_of (setting here.now) domain.now }
{
    match domain {
        Domain::Public => Some(Protection::Public),
        Domain::Named(name) => {
            let name = name.text.as_str();
            match bound(name, &here.function.variables, here.binding) {
                Some(domain) => Some(domain),
                None => match here.declarations.domains.number(name) {
                    Some(number) => Some(Protection::Private(number)),
                    None => None,
                },
            }
        }
    }
}

/// The type that is written, if its domain is known.
pub fn written<'p>(here: &Setting<'_, 'p>, declared: &'p DeclaredType) -> Option<ValueType>
    ensures { result ≡ type_written (setting here.now) declared.now }
{
    match domain(here, &declared.domain) {
        Some(domain) => Some(ValueType {
            domain,
            element: declared.element,
            array: declared.array,
        }),
        None => None,
    }
}
