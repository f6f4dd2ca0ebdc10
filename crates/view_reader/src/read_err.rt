// Why a text is not read.
ghost use Rattle.std.specs.Prelude.{◌≡◌};
ghost use Rattle.view_reader.specs.declared.read_err.ReadErr.TheVariants.{Memory};

use std::alloc::AllocError;

/// Why the text of a view, or of opened values, is not read.
#[derive(Clone, Copy, Debug)]
pub enum ReadErr {
    /// The text is of another form; `line` is the number of its first wrong line, from 1.
    BadView { line: u64 },
    /// Memory ran short.
    Memory,
}

impl From<AllocError> for ReadErr {
    ghost from_gives = { λ _ e. e ≡ Memory };

    fn from(_: AllocError) -> Self {
        ReadErr::Memory
    }
}
