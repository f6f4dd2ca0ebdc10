use crate::ParseProblem;
use secrec_lexer::Token;
use std::alloc::{AllocError, AllocFailed};

/// Why a phrase was not read: memory ran out, or the tokens from here on begin none.
#[derive(Drop)]
pub enum Stopped<'a> {
    Memory,
    At(ParseProblem, &'a [Token]),
}

/// A phrase that was read, and the tokens after it.
pub type Read<'a, T> = Result<(T, &'a [Token]), Stopped<'a>>;

impl From<AllocError> for Stopped<'_> {
    ghost use Rattle.std.specs.Prelude.{◌≡◌};
    ghost use Rattle.expression_parser.specs.declared.stopped.Stopped.TheVariants.{Memory};

    ghost from_gives = { λ _ e. e ≡ Memory };

    fn from(_: AllocError) -> Self {
        Stopped::Memory
    }
}

impl<T: Drop> From<AllocFailed<T>> for Stopped<'_> {
    ghost use Rattle.std.specs.Prelude.{◌≡◌};
    ghost use Rattle.expression_parser.specs.declared.stopped.Stopped.TheVariants.{Memory};

    ghost from_gives = { λ _ e. e ≡ Memory };

    fn from(_: AllocFailed<T>) -> Self {
        Stopped::Memory
    }
}
