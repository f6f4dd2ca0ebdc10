use std::alloc::{AllocError, AllocFailed};

/// Why a program, or a piece of one, is given no typed tree.
#[derive(Clone, Copy)]
pub enum ResolveErr {
    /// It has none: a name means nothing, or an operator or a call doesn't fit what it is given.
    Unresolved,
    /// Memory ran short.
    Memory,
}

impl From<AllocError> for ResolveErr {
    ghost use Rattle.std.specs.Prelude.{◌≡◌};
    ghost use Rattle.name_resolution.specs.declared.resolve_err.ResolveErr.TheVariants.{Memory};

    ghost from_gives = { λ _ e. e ≡ Memory };

    fn from(_: AllocError) -> Self {
        ResolveErr::Memory
    }
}

impl<T: Drop> From<AllocFailed<T>> for ResolveErr {
    ghost use Rattle.std.specs.Prelude.{◌≡◌};
    ghost use Rattle.name_resolution.specs.declared.resolve_err.ResolveErr.TheVariants.{Memory};

    ghost from_gives = { λ _ e. e ≡ Memory };

    fn from(_: AllocFailed<T>) -> Self {
        ResolveErr::Memory
    }
}
