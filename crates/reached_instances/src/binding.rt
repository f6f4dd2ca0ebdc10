// What a call binds the domain variables of its function to.
ghost use Rattle.std.specs.Prelude.{◌≡◌, IfOk};
ghost use Rattle.program_trees.specs.TypedPrograms.{typed_function_tree};
ghost use Rattle.reached_instances.specs.Domains.{is_variable, bound_to, binding_of};

use crate::instance::BoundDomain;
use crate::setting::joined_domain;
use program_trees::{Slot, SlotDomain, TypedFunction};
use std::alloc::{AllocError, Global};

// Whether a domain variable is what is written.
fn is_variable(variable: usize, domain: SlotDomain) -> bool
    ensures { result ≡ is_variable variable domain }
{
    match domain {
        SlotDomain::Public | SlotDomain::Private(_) => false,
        SlotDomain::Variable(number) => number == variable,
    }
}

// What the arguments bind a domain variable to.
fn bound_to(variable: usize, slots: &[Slot], arguments: &[BoundDomain]) -> BoundDomain
    ensures { result ≡ bound_to variable slots.now arguments.now }
{
    let mut bound = BoundDomain::Public;
    let mut slots = slots;
    let mut arguments = arguments;
    while let (Some((slot, more)), Some((argument, others))) = (
        slots.split_first(),
        arguments.split_first(),
    ) {
        if is_variable(variable, slot.domain) {
            bound = joined_domain(bound, *argument);
        }
        slots = more;
        arguments = others;
    }
    bound
}

/// What a call with arguments of these domains binds the domain variables of a function to.
pub fn binding_of(
    alloc: Global,
    function: &TypedFunction,
    arguments: &[BoundDomain],
) -> Result<Vec<BoundDomain>, AllocError>
    ensures { IfOk result (λ b. b.items ≡ binding_of (typed_function_tree function.now) arguments.now) }
{
    let mut binding = Vec::new(alloc);
    for variable in 0..function.variables {
        binding.push(bound_to(variable, &function.slots, arguments))?;
    }
    Ok(binding)
}
