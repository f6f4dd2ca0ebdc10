// The rules of the built-in functions, on the types of their arguments.
ghost use Rattle.std.specs.Prelude.{◌≡◌};
ghost use Rattle.domain_types.specs.Types.{unless_refused};
ghost use Rattle.domain_types.specs.ExpressionTypes.{built_in_faults, built_in_result};
ghost use Rattle.declarations.specs.declared.built_in.BuiltIn.TheVariants.{Size, Cat, Sum, BitExtract, Lookup};
ghost use Rattle.domain_types.specs.inner.LeastFault.{least};

use crate::fault::{TypeFault, TypeProblem};
use crate::least_fault::{note, note_if};
use crate::rules::{is_number, is_private, is_uint64, meet, mix, same_element};
use crate::value_type::{Argument, Protection, ValueType};
use declarations::BuiltIn;
use program_trees::DataType;
use sc_text::Span;

#[tactic(auto, using(crate::proofs::Faults::joins), unfolding(crate::specs::ExpressionTypes::built_in_faults, crate::specs::ExpressionTypes::built_in_result))]
fn size(
    least_fault: &mut Option<TypeFault>,
    place: Span,
    arguments: &[Argument],
) -> Option<ValueType>
    ensures kind { result ≡ unless_refused (built_in_faults place Size arguments.now) (built_in_result Size arguments.now) }
    ensures least_fault { least_fault.new ≡ least least_fault.old (built_in_faults place Size arguments.now) }
{
    let [a] = arguments else {
        note(least_fault, place, TypeProblem::BadArity);
        return None;
    };
    note_if(
        least_fault,
        !a.given.array,
        place,
        TypeProblem::TypeMismatch,
    );
    if !a.given.array {
        return None;
    }
    Some(ValueType {
        domain: Protection::Public,
        element: DataType::Uint64,
        array: false,
    })
}

#[tactic(auto, using(crate::proofs::Faults::joins), unfolding(crate::specs::ExpressionTypes::built_in_faults, crate::specs::ExpressionTypes::built_in_result))]
fn cat(
    least_fault: &mut Option<TypeFault>,
    place: Span,
    arguments: &[Argument],
) -> Option<ValueType>
    ensures kind { result ≡ unless_refused (built_in_faults place Cat arguments.now) (built_in_result Cat arguments.now) }
    ensures least_fault { least_fault.new ≡ least least_fault.old (built_in_faults place Cat arguments.now) }
{
    let [a, b] = arguments else {
        note(least_fault, place, TypeProblem::BadArity);
        return None;
    };
    let (a, b) = (a.given, b.given);
    let arrays = a.array && b.array && same_element(a.element, b.element);
    note_if(least_fault, !arrays, place, TypeProblem::TypeMismatch);
    let meets = mix(least_fault, place, a.domain, b.domain);
    if !arrays || !meets {
        return None;
    }
    Some(ValueType {
        domain: meet(a.domain, b.domain)?,
        element: a.element,
        array: true,
    })
}

#[tactic(auto, using(crate::proofs::Faults::joins), unfolding(crate::specs::ExpressionTypes::built_in_faults, crate::specs::ExpressionTypes::built_in_result))]
fn sum(
    least_fault: &mut Option<TypeFault>,
    place: Span,
    arguments: &[Argument],
) -> Option<ValueType>
    ensures kind { result ≡ unless_refused (built_in_faults place Sum arguments.now) (built_in_result Sum arguments.now) }
    ensures least_fault { least_fault.new ≡ least least_fault.old (built_in_faults place Sum arguments.now) }
{
    let [a] = arguments else {
        note(least_fault, place, TypeProblem::BadArity);
        return None;
    };
    let a = a.given;
    let numbers = a.array && is_number(a.element);
    note_if(least_fault, !numbers, place, TypeProblem::TypeMismatch);
    if !numbers {
        return None;
    }
    Some(ValueType {
        domain: a.domain,
        element: a.element,
        array: false,
    })
}

#[tactic(auto, using(crate::proofs::Faults::joins), unfolding(crate::specs::ExpressionTypes::built_in_faults, crate::specs::ExpressionTypes::built_in_result))]
fn bit_extract(
    least_fault: &mut Option<TypeFault>,
    place: Span,
    arguments: &[Argument],
) -> Option<ValueType>
    ensures kind { result ≡ unless_refused (built_in_faults place BitExtract arguments.now) (built_in_result BitExtract arguments.now) }
    ensures least_fault { least_fault.new ≡ least least_fault.old (built_in_faults place BitExtract arguments.now) }
{
    let [a] = arguments else {
        note(least_fault, place, TypeProblem::BadArity);
        return None;
    };
    let words = is_uint64(a.given.element);
    note_if(least_fault, !words, place, TypeProblem::TypeMismatch);
    if !words {
        return None;
    }
    Some(ValueType {
        domain: a.given.domain,
        element: DataType::Bool,
        array: true,
    })
}

#[tactic(auto, using(crate::proofs::Faults::joins), unfolding(crate::specs::ExpressionTypes::built_in_faults, crate::specs::ExpressionTypes::built_in_result))]
fn lookup(
    least_fault: &mut Option<TypeFault>,
    place: Span,
    arguments: &[Argument],
) -> Option<ValueType>
    ensures kind { result ≡ unless_refused (built_in_faults place Lookup arguments.now) (built_in_result Lookup arguments.now) }
    ensures least_fault { least_fault.new ≡ least least_fault.old (built_in_faults place Lookup arguments.now) }
{
    let [array, index] = arguments else {
        note(least_fault, place, TypeProblem::BadArity);
        return None;
    };
    let (array, index) = (array.given, index.given);
    let private_one = is_private(array.domain) || is_private(index.domain);
    let fits = array.array && is_number(array.element) && is_uint64(index.element) && private_one;
    note_if(least_fault, !fits, place, TypeProblem::TypeMismatch);
    let meets = mix(least_fault, place, array.domain, index.domain);
    if !fits || !meets {
        return None;
    }
    Some(ValueType {
        domain: meet(array.domain, index.domain)?,
        element: array.element,
        array: index.array,
    })
}

/// The rule of a built-in function, whose call begins at the place.
pub fn built_in(
    least_fault: &mut Option<TypeFault>,
    place: Span,
    function: BuiltIn,
    arguments: &[Argument],
) -> Option<ValueType>
    ensures kind { result ≡ unless_refused (built_in_faults place function arguments.now) (built_in_result function arguments.now) }
    ensures least_fault { least_fault.new ≡ least least_fault.old (built_in_faults place function arguments.now) }
{
    match function {
        BuiltIn::Size => size(least_fault, place, arguments),
        BuiltIn::Cat => cat(least_fault, place, arguments),
        BuiltIn::Sum => sum(least_fault, place, arguments),
        BuiltIn::BitExtract => bit_extract(least_fault, place, arguments),
        BuiltIn::Lookup => lookup(least_fault, place, arguments),
    }
}
