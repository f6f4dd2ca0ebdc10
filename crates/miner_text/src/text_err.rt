// Why a text is not read.
ghost use Rattle.std.specs.Prelude.{◌≡◌};
ghost use Rattle.miner_text.specs.declared.text_err.TextErr.TheVariants.{Memory};

use std::alloc::AllocError;

/// Why a miner's text is not read.
#[derive(Clone, Copy, Debug)]
pub enum TextErr {
    /// The text is of another form; `line` is the number of its first wrong line, from 1.
    BadText { line: u64 },
    /// Memory ran short.
    Memory,
}

impl From<AllocError> for TextErr {
    ghost from_gives = { λ _ e. e ≡ Memory };

    fn from(_: AllocError) -> Self {
        TextErr::Memory
    }
}
