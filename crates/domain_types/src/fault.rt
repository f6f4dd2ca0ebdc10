use sc_text::Span;

/// What a program does against the rules of the language.
#[derive(Clone, Copy)]
pub enum TypeProblem {
    /// D1: a variable, function, domain or kind that is not declared.
    UnknownName,
    /// D2: a name that is declared again in its space and block.
    Twice,
    /// D3: a wrong data type or dimension.
    TypeMismatch,
    /// D4: a private condition.
    PrivateCondition,
    /// D5: a private index.
    PrivateIndex,
    /// D6: a private size.
    PrivateSize,
    /// D7: a private value where a public one is wanted.
    PrivateToPublic,
    /// D8: a division with a private operand.
    PrivateDivision,
    /// D9: a private assertion.
    PrivateAssert,
    /// D10: two private domains meet.
    DomainMix,
    /// D11: no plain `void main()`.
    NoMain,
    /// D12: an import of a module that is not there.
    BadImport,
    /// D13: a call with a wrong number of arguments.
    BadArity,
    /// D14: a body that does not always return its value.
    MissingReturn,
    /// D15: `argument` where it is not the whole initialiser of a declaration without a size.
    ArgumentPlace,
}

/// A fault of a program: what is wrong, and where.
#[derive(Clone, Copy)]
pub struct TypeFault {
    pub place: Span,
    pub problem: TypeProblem,
}
