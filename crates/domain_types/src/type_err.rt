// Why a program is refused.
ghost use Rattle.std.specs.Prelude.{◌≡◌};
ghost use Rattle.domain_types.specs.declared.type_err.TypeErr.TheVariants.{Memory};

use crate::fault::TypeFault;
use std::alloc::AllocError;

/// Why a program is refused.
#[derive(Clone, Copy)]
pub enum TypeErr {
    /// The least of the program's faults.
    Refused(TypeFault),
    /// Memory ran short.
    Memory,
}

impl From<AllocError> for TypeErr {
    ghost from_gives = { λ _ e. e ≡ Memory };

    fn from(_: AllocError) -> Self {
        TypeErr::Memory
    }
}
