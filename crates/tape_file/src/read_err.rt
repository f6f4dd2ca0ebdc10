// Why a tape file is not read.
ghost use Rattle.std.specs.Prelude.{◌≡◌};
ghost use Rattle.tape_file.specs.declared.read_err.ReadErr.TheVariants.{Memory};

use std::alloc::AllocError;

/// Why a tape file is not read.
#[derive(Clone, Copy, Debug)]
pub enum ReadErr {
    /// The bytes are no tape file; `place` is where in them the first fault is.
    BadTape { place: u64 },
    /// Memory ran short.
    Memory,
}

impl From<AllocError> for ReadErr {
    ghost from_gives = { λ _ e. e ≡ Memory };

    fn from(_: AllocError) -> Self {
        ReadErr::Memory
    }
}
