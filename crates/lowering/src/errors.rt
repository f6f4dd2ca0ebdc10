ghost use Rattle.std.specs.Prelude.{◌≡◌};
ghost use Rattle.lowering.specs.declared.errors.LowerErr.TheVariants.{Memory};

use std::alloc::AllocError;

/// Why there is no code of a program.
#[derive(Clone, Copy)]
pub enum LowerErr {
    /// Memory ran short.
    Memory,
    /// A number of the code is too large for its field.
    TooLarge,
}

impl From<AllocError> for LowerErr {
    ghost from_gives = { λ _ e. e ≡ Memory };

    fn from(_: AllocError) -> Self {
        LowerErr::Memory
    }
}
