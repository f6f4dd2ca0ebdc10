// Where a value may go. Each rule notes its faults and says whether there is none.
ghost use Rattle.std.specs.Prelude.{◌≡◌};
ghost use Rattle.domain_types.specs.Types.{is_without, of_typed, is_private, is_uint64, is_number, same_element, same_dimension, meet, mix_faults};
ghost use Rattle.domain_types.specs.Types.{flow_faults, store_faults, scalar_faults};
ghost use Rattle.domain_types.specs.inner.LeastFault.{least};

use crate::fault::{TypeFault, TypeProblem};
use crate::least_fault::{note, note_if};
use crate::value_type::{Protection, ValueType};
use program_trees::DataType;
use sc_text::Span;

/// Whether a domain is private.
pub fn is_private(domain: Protection) -> bool
    ensures { result ≡ is_private domain }
{
    match domain {
        Protection::Public => false,
        Protection::Private(_) => true,
    }
}

/// Whether the elements are numbers without a sign.
pub fn is_uint64(element: DataType) -> bool
    ensures { result ≡ is_uint64 element }
{
    match element {
        DataType::Uint64 => true,
        DataType::Int64 | DataType::Bool => false,
    }
}

/// Whether the elements are numbers, and not truth values.
pub fn is_number(element: DataType) -> bool
    ensures { result ≡ is_number element }
{
    match element {
        DataType::Uint64 | DataType::Int64 => true,
        DataType::Bool => false,
    }
}

/// Whether the elements are of one type.
pub fn same_element(a: DataType, b: DataType) -> bool
    ensures { result ≡ same_element a b }
{
    a == b
}

/// Whether both are arrays, or both scalars.
pub fn same_dimension(a: bool, b: bool) -> bool
    ensures { result ≡ same_dimension a b }
{
    a == b
}

/// The domain of what operands of these domains make together.
pub fn meet(a: Protection, b: Protection) -> Option<Protection>
    ensures { result ≡ meet a b }
{
    match (a, b) {
        (Protection::Public, b) => Some(b),
        (a, Protection::Public) => Some(a),
        (Protection::Private(k), Protection::Private(m)) => if k == m { Some(a) } else { None },
    }
}

/// Operands of these domains meet.
pub fn mix(least_fault: &mut Option<TypeFault>, place: Span, a: Protection, b: Protection) -> bool
    ensures fits { result ≡ is_without (mix_faults place a b) }
    ensures least_fault { least_fault.new ≡ least least_fault.old (mix_faults place a b) }
{
    match (a, b) {
        (Protection::Private(k), Protection::Private(m)) => {
            note_if(least_fault, k != m, place, TypeProblem::DomainMix);
            k == m
        }
        _ => true,
    }
}

// A value of the domain `given` goes where `wanted` is.
fn flow(
    least_fault: &mut Option<TypeFault>,
    place: Span,
    wanted: Protection,
    given: Protection,
) -> bool
    ensures fits { result ≡ is_without (flow_faults place wanted given) }
    ensures least_fault { least_fault.new ≡ least least_fault.old (flow_faults place wanted given) }
{
    match (wanted, given) {
        (_, Protection::Public) => true,
        (Protection::Public, Protection::Private(_)) => {
            note(least_fault, place, TypeProblem::PrivateToPublic);
            false
        }
        (Protection::Private(k), Protection::Private(m)) => {
            note_if(least_fault, k != m, place, TypeProblem::DomainMix);
            k == m
        }
    }
}

/// A value goes to a variable, a parameter or a result.
#[tactic(auto, using(crate::proofs::Faults::joins))]
pub fn store(
    least_fault: &mut Option<TypeFault>,
    place: Span,
    wanted: ValueType,
    given: ValueType,
) -> bool
    ensures fits { result ≡ is_without (store_faults place wanted given) }
    ensures least_fault { least_fault.new ≡ least least_fault.old (store_faults place wanted given) }
{
    let same = same_element(wanted.element, given.element)
        && same_dimension(wanted.array, given.array);
    note_if(least_fault, !same, place, TypeProblem::TypeMismatch);
    let flows = flow(least_fault, place, wanted.domain, given.domain);
    same && flows
}

/// A value goes to a variable, a parameter or a result, where both have types.
pub fn store_typed(
    least_fault: &mut Option<TypeFault>,
    place: Span,
    wanted: Option<ValueType>,
    given: Option<ValueType>,
)
    ensures { least_fault.new ≡ least least_fault.old (of_typed wanted (λ t. of_typed given (store_faults place t))) }
{
    if let (Some(wanted), Some(given)) = (wanted, given) {
        let _ = store(least_fault, place, wanted, given);
    }
}

/// A public scalar is wanted; a private one is this problem.
#[tactic(auto, using(crate::proofs::Faults::joins))]
pub fn scalar(
    least_fault: &mut Option<TypeFault>,
    element: DataType,
    private_one: TypeProblem,
    place: Span,
    given: ValueType,
) -> bool
    ensures fits { result ≡ is_without (scalar_faults element private_one place given) }
    ensures least_fault { least_fault.new ≡ least least_fault.old (scalar_faults element private_one place given) }
{
    let same = same_element(element, given.element) && !given.array;
    note_if(least_fault, !same, place, TypeProblem::TypeMismatch);
    let hidden = is_private(given.domain);
    note_if(least_fault, hidden, place, private_one);
    same && !hidden
}
