// Why a text is not read as a schedule.
ghost use Rattle.std.specs.Prelude.{◌≡◌};
ghost use Rattle.schedule_file.specs.declared.read_err.ReadErr.TheVariants.{Memory};

use std::alloc::{AllocError, AllocFailed};

/// Why a text is not read as a schedule.
#[derive(Clone, Copy, Debug)]
pub enum ReadErr {
    /// The first line that is no link, or has no newline after it; the first line of the text has number 1.
    BadEntry { line: u64 },
    /// There is no memory left.
    Memory,
}

impl From<AllocError> for ReadErr {
    ghost from_gives = { λ _ e. e ≡ Memory };

    fn from(_: AllocError) -> Self {
        ReadErr::Memory
    }
}

impl<T: Drop> From<AllocFailed<T>> for ReadErr {
    ghost from_gives = { λ _ e. e ≡ Memory };

    fn from(_: AllocFailed<T>) -> Self {
        ReadErr::Memory
    }
}
