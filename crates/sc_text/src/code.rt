ghost use Rattle.std.specs.Prelude.{◌≡◌, Some};
ghost use Rattle.sc_text.specs.Fault.{placed_code, counted_code};

use std::fmt;

/// What is wrong at a place of a program.
#[derive(Clone, Copy)]
pub enum PlacedFault {
    /// L1: a byte that no token has.
    BadByte,
    /// L2: a number with a wrong digit, without digits, or beyond 64 bits.
    BadNumber,
    /// L3: a string that is not closed.
    OpenText,
    /// L4: a comment that is not closed.
    OpenComment,
    /// L5: a string or an identifier of no byte, or of too many.
    BadName,
    /// L6: a program of too many bytes.
    TooLong,
    /// Y1: a token that the grammar has not there.
    Unexpected,
    /// Y2: a tree that is too high.
    TooDeep,
    /// D1: a name that is not declared.
    UnknownName,
    /// D2: a name that is declared twice.
    Twice,
    /// D3: a type that does not fit.
    TypeMismatch,
    /// D4: a private condition.
    PrivateCondition,
    /// D5: a private index.
    PrivateIndex,
    /// D6: a private size.
    PrivateSize,
    /// D7: a private value where a public one is wanted.
    PrivateToPublic,
    /// D8: a private division.
    PrivateDivision,
    /// D9: an assertion of a private value.
    PrivateAssert,
    /// D10: two private domains in one operation.
    DomainMix,
    /// D11: no function `main`.
    NoMain,
    /// D12: an unknown import.
    BadImport,
    /// D13: a call with too few or too many operands.
    BadArity,
    /// D14: a function that can end without its result.
    MissingReturn,
    /// D15: `argument` where it is not a declaration's whole initialiser.
    ArgumentPlace,
}

impl PlacedFault {
    /// The code that the fault is printed by.
    #[tactic(auto, unfolding(crate::specs::Fault::placed_code))]
    pub fn code(self) -> &'static str
        ensures { result.now ≡ placed_code self }
    {
        match self {
            PlacedFault::BadByte => "L1",
            PlacedFault::BadNumber => "L2",
            PlacedFault::OpenText => "L3",
            PlacedFault::OpenComment => "L4",
            PlacedFault::BadName => "L5",
            PlacedFault::TooLong => "L6",
            PlacedFault::Unexpected => "Y1",
            PlacedFault::TooDeep => "Y2",
            PlacedFault::UnknownName => "D1",
            PlacedFault::Twice => "D2",
            PlacedFault::TypeMismatch => "D3",
            PlacedFault::PrivateCondition => "D4",
            PlacedFault::PrivateIndex => "D5",
            PlacedFault::PrivateSize => "D6",
            PlacedFault::PrivateToPublic => "D7",
            PlacedFault::PrivateDivision => "D8",
            PlacedFault::PrivateAssert => "D9",
            PlacedFault::DomainMix => "D10",
            PlacedFault::NoMain => "D11",
            PlacedFault::BadImport => "D12",
            PlacedFault::BadArity => "D13",
            PlacedFault::MissingReturn => "D14",
            PlacedFault::ArgumentPlace => "D15",
        }
    }
}

/// Writes the fault's code.
impl fmt::Display for PlacedFault {
    ghost output = { λ fault. Some (placed_code fault) };

    fn fmt<W: fmt::Write>(&self, f: &mut fmt::Formatter<W>) -> fmt::Result {
        f.write_str(self.code())
    }
}

/// What a program has too many of.
#[derive(Clone, Copy)]
pub enum CountedFault {
    /// X1: instances of templates.
    TooManyInstances,
    /// X2: nodes of all functions together.
    ProgramTooLarge,
    /// X3: nodes of one function.
    FunctionTooLarge,
}

impl CountedFault {
    /// The code that the fault is printed by.
    #[tactic(auto, unfolding(crate::specs::Fault::counted_code))]
    pub fn code(self) -> &'static str
        ensures { result.now ≡ counted_code self }
    {
        match self {
            CountedFault::TooManyInstances => "X1",
            CountedFault::ProgramTooLarge => "X2",
            CountedFault::FunctionTooLarge => "X3",
        }
    }
}

/// Writes the fault's code.
impl fmt::Display for CountedFault {
    ghost output = { λ fault. Some (counted_code fault) };

    fn fmt<W: fmt::Write>(&self, f: &mut fmt::Formatter<W>) -> fmt::Result {
        f.write_str(self.code())
    }
}
