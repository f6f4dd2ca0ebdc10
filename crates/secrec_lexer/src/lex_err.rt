ghost use Rattle.std.specs.Prelude.{◌≡◌};
ghost use Rattle.secrec_lexer.specs.declared.lex_err.LexErr.TheVariants.{Memory};
ghost use Rattle.secrec_lexer.specs.Faults.{placed_fault};

use sc_text::{PlacedFault, Span};
use std::alloc::{AllocError, AllocFailed};

/// What is wrong with a text.
#[derive(Clone, Copy)]
pub enum LexFault {
    /// L1: a byte that no token has.
    BadByte,
    /// L2: a number with a wrong digit, without digits, or of 2^64 or more.
    BadNumber,
    /// L3: a string that is not closed in its line.
    OpenText,
    /// L4: a comment that is not closed.
    OpenComment,
    /// L5: a string of no byte, or a string or an identifier of more than 64.
    BadName,
    /// L6: a text of more than 1,048,576 bytes.
    TooLong,
}

/// Why there are no tokens.
#[derive(Clone, Copy)]
pub enum LexErr {
    /// Memory ran short.
    Memory,
    /// The text is refused for its first fault, which stands at this place.
    Refused { fault: LexFault, place: Span },
}

impl From<AllocError> for LexErr {
    ghost from_gives = { λ _ e. e ≡ Memory };

    fn from(_: AllocError) -> Self {
        LexErr::Memory
    }
}

impl<T: Drop> From<AllocFailed<T>> for LexErr {
    ghost from_gives = { λ _ e. e ≡ Memory };

    fn from(_: AllocFailed<T>) -> Self {
        LexErr::Memory
    }
}

/// The fault by the name that it is printed for.
impl From<LexFault> for PlacedFault {
    ghost from_gives = { λ fault placed. placed ≡ placed_fault fault };

    fn from(fault: LexFault) -> Self {
        match fault {
            LexFault::BadByte => PlacedFault::BadByte,
            LexFault::BadNumber => PlacedFault::BadNumber,
            LexFault::OpenText => PlacedFault::OpenText,
            LexFault::OpenComment => PlacedFault::OpenComment,
            LexFault::BadName => PlacedFault::BadName,
            LexFault::TooLong => PlacedFault::TooLong,
        }
    }
}
