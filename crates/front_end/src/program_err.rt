ghost use Rattle.std.specs.Prelude.{◌≡◌};
ghost use Rattle.front_end.specs.Refusals.{refused, lexer_error, parser_error, type_err, fault_said};

use crate::program_fault::{ProgramFault, of_grammar};
use domain_types::TypeErr;
use sc_text::{Fault, PlacedFault, Span};
use secrec_lexer::LexErr;
use secrec_parser::ParseErr;

/// Why there is no program.
#[derive(Clone, Copy)]
pub enum ProgramErr {
    /// The text is refused for its first fault.
    Refused(ProgramFault),
    /// Memory ran short.
    Memory,
}

// A refusal for this fault at this place.
fn refusal(fault: PlacedFault, place: Span) -> ProgramErr
    ensures { result ≡ refused fault place }
{
    ProgramErr::Refused(ProgramFault { fault, place })
}

impl From<LexErr> for ProgramErr {
    ghost from_gives = { λ error given. given ≡ lexer_error error };

    fn from(error: LexErr) -> Self {
        match error {
            LexErr::Memory => ProgramErr::Memory,
            LexErr::Refused { fault, place } => refusal(fault.into(), place),
        }
    }
}

impl From<ParseErr> for ProgramErr {
    ghost from_gives = { λ error given. given ≡ parser_error error };

    fn from(error: ParseErr) -> Self {
        match error {
            ParseErr::Memory => ProgramErr::Memory,
            ParseErr::Refused { problem, place } => refusal(of_grammar(problem), place),
        }
    }
}

impl From<TypeErr> for ProgramErr {
    ghost from_gives = { λ error given. given ≡ type_err error };

    fn from(error: TypeErr) -> Self {
        match error {
            TypeErr::Memory => ProgramErr::Memory,
            TypeErr::Refused(fault) => ProgramErr::Refused(fault.into()),
        }
    }
}

/// The fault whose line a command says.
impl From<ProgramErr> for Fault {
    ghost from_gives = { λ error fault. fault ≡ fault_said error };

    fn from(error: ProgramErr) -> Self {
        match error {
            ProgramErr::Memory => Fault::Memory,
            ProgramErr::Refused(ProgramFault { fault, place }) => Fault::Placed {
                fault,
                span: place,
            },
        }
    }
}
