ghost use Rattle.std.specs.Prelude.{◌≡◌};

use sc_text::Ending;
use std::alloc::{AllocError, AllocFailed};

/// Why a run stopped.
#[derive(Clone, Copy)]
pub enum Halt {
    /// Memory ran short: nothing is said of the run.
    Memory,
    /// The run ended.
    Ended(Ending),
    /// An opened value wanted more answers than are left.
    Short,
}

impl From<AllocError> for Halt {
    ghost use Rattle.value_steps.specs.declared.halt.Halt.TheVariants.{Memory};

    ghost from_gives = { λ _ halt. halt ≡ Memory };

    fn from(_error: AllocError) -> Halt {
        Halt::Memory
    }
}

impl<T: Drop> From<AllocFailed<T>> for Halt {
    ghost use Rattle.value_steps.specs.declared.halt.Halt.TheVariants.{Memory};

    ghost from_gives = { λ _ halt. halt ≡ Memory };

    fn from(_error: AllocFailed<T>) -> Halt {
        Halt::Memory
    }
}
