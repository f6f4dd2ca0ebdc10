// Why there is no twin.
ghost use Rattle.std.specs.Prelude.{◌≡◌};
ghost use Rattle.client_runs.specs.declared.twin_err.TwinErr.TheVariants.{Memory};

use sc_text::Name;
use std::alloc::AllocError;

/// Why two inputs have no twin tapes for the client.
pub enum TwinErr {
    /// The public parts differ, first at the input of this name.
    PublicDiffers(Name),
    /// The opened words differ, first at this place, from 0, where the two runs open these.
    OpenedDiffers {
        place: usize,
        first: u64,
        second: u64,
    },
    /// What is handed over differs, first at the element of this place, from 0, where the two runs hand over these words.
    PublishedDiffers {
        place: usize,
        first: u64,
        second: u64,
    },
    /// There is no memory left.
    Memory,
}

// Written out, so that an early exit calls this once.
impl Drop for TwinErr {
    fn drop(self) {
        match self {
            TwinErr::PublicDiffers(_)
            | TwinErr::OpenedDiffers {
                place: _,
                first: _,
                second: _,
            }
            | TwinErr::PublishedDiffers {
                place: _,
                first: _,
                second: _,
            }
            | TwinErr::Memory => {}
        }
    }
}

impl From<AllocError> for TwinErr {
    ghost from_gives = { λ _ e. e ≡ Memory };

    fn from(_refused: AllocError) -> Self {
        TwinErr::Memory
    }
}
