// The fault that is told: the checker goes over the tree once and keeps the least fault so far.
ghost use Rattle.std.specs.Prelude.{◌≡◌, ◌∷◌, []};
ghost use Rattle.domain_types.specs.Types.{fault_at, fault_if};
ghost use Rattle.domain_types.specs.Least.{number_of};
ghost use Rattle.domain_types.specs.inner.LeastFault.{is_before, least};

use crate::fault::{TypeFault, TypeProblem};
use sc_text::Span;

impl TypeProblem {
    /// The number in the code that is printed: 1 to 15.
    pub fn number(self) -> u8
        ensures { result ≡ number_of self }
    {
        match self {
            TypeProblem::UnknownName => 1,
            TypeProblem::Twice => 2,
            TypeProblem::TypeMismatch => 3,
            TypeProblem::PrivateCondition => 4,
            TypeProblem::PrivateIndex => 5,
            TypeProblem::PrivateSize => 6,
            TypeProblem::PrivateToPublic => 7,
            TypeProblem::PrivateDivision => 8,
            TypeProblem::PrivateAssert => 9,
            TypeProblem::DomainMix => 10,
            TypeProblem::NoMain => 11,
            TypeProblem::BadImport => 12,
            TypeProblem::BadArity => 13,
            TypeProblem::MissingReturn => 14,
            TypeProblem::ArgumentPlace => 15,
        }
    }
}

// Whether the first fault stands before the second, or is of no greater number at the same place.
fn is_before(first: TypeFault, second: TypeFault) -> bool
    ensures { result ≡ is_before first second }
{
    let (a, b) = (first.place, second.place);
    a.line < b.line
        || (a.line == b.line
            && (a.column < b.column
                || (a.column == b.column && first.problem.number() <= second.problem.number())))
}

/// Keeps the lesser of the fault so far and this one.
pub fn note(least_fault: &mut Option<TypeFault>, place: Span, problem: TypeProblem)
    ensures { least_fault.new ≡ least least_fault.old (fault_at place problem) }
{
    let fault = TypeFault { place, problem };
    let keeps = match least_fault {
        Some(old) => is_before(*old, fault),
        None => false,
    };
    if !keeps {
        *least_fault = Some(fault);
    }
}

/// Notes the fault where it is so; whether it is not.
pub fn note_if(least_fault: &mut Option<TypeFault>, wrong: bool, place: Span, problem: TypeProblem)
    ensures { least_fault.new ≡ least least_fault.old (fault_if wrong place problem) }
{
    if wrong {
        note(least_fault, place, problem);
    }
}
