ghost use Rattle.std.specs.Prelude.{◌≡◌};
ghost use Rattle.front_end.specs.Judgement.{syntax_fault, rule_fault};
ghost use Rattle.front_end.specs.Refusals.{type_fault};

use domain_types::TypeProblem;
use expression_parser::ParseProblem;
use sc_text::{PlacedFault, Span};

/// What is wrong with a program, and where.
#[derive(Clone, Copy)]
pub struct ProgramFault {
    pub fault: PlacedFault,
    pub place: Span,
}

/// The fault of the type rules, by the name that it is printed for.
impl From<domain_types::TypeFault> for ProgramFault {
    ghost from_gives = { λ fault given. given ≡ type_fault fault };

    fn from(fault: domain_types::TypeFault) -> Self {
        ProgramFault {
            fault: of_rules(fault.problem),
            place: fault.place,
        }
    }
}

// What a problem of the grammar is printed for.
pub(crate) fn of_grammar(problem: ParseProblem) -> PlacedFault
    ensures { result ≡ syntax_fault problem }
{
    match problem {
        ParseProblem::Unexpected => PlacedFault::Unexpected,
        ParseProblem::TooHigh => PlacedFault::TooDeep,
    }
}

// What a problem of the type rules is printed for.
fn of_rules(problem: TypeProblem) -> PlacedFault
    ensures { result ≡ rule_fault problem }
{
    match problem {
        TypeProblem::UnknownName => PlacedFault::UnknownName,
        TypeProblem::Twice => PlacedFault::Twice,
        TypeProblem::TypeMismatch => PlacedFault::TypeMismatch,
        TypeProblem::PrivateCondition => PlacedFault::PrivateCondition,
        TypeProblem::PrivateIndex => PlacedFault::PrivateIndex,
        TypeProblem::PrivateSize => PlacedFault::PrivateSize,
        TypeProblem::PrivateToPublic => PlacedFault::PrivateToPublic,
        TypeProblem::PrivateDivision => PlacedFault::PrivateDivision,
        TypeProblem::PrivateAssert => PlacedFault::PrivateAssert,
        TypeProblem::DomainMix => PlacedFault::DomainMix,
        TypeProblem::NoMain => PlacedFault::NoMain,
        TypeProblem::BadImport => PlacedFault::BadImport,
        TypeProblem::BadArity => PlacedFault::BadArity,
        TypeProblem::MissingReturn => PlacedFault::MissingReturn,
        TypeProblem::ArgumentPlace => PlacedFault::ArgumentPlace,
    }
}
