// Why texts are not put together.
ghost use Rattle.std.specs.Prelude.{◌≡◌};
ghost use Rattle.trio.specs.declared.join_err.JoinErr.TheVariants.{Memory};

use crate::difference::Difference;
use proto_core::Number;
use std::alloc::AllocError;

/// Why the texts of three miners are not put together.
pub enum JoinErr {
    /// The file of this miner's text could not be read.
    File { miner: Number },
    /// This miner's text is of another form; `line` is the number of its first wrong line, from 1.
    BadText { miner: Number, line: u64 },
    /// Two texts differ.
    Disagree(Difference),
    /// Memory ran short.
    Memory,
}

// Written out, so that an early exit calls this once.
impl Drop for JoinErr {
    fn drop(self) {
        match self {
            JoinErr::File { miner: _ } | JoinErr::BadText { miner: _, line: _ } => {}
            JoinErr::Disagree(_) | JoinErr::Memory => {}
        }
    }
}

impl From<AllocError> for JoinErr {
    ghost from_gives = { λ _ e. e ≡ Memory };

    fn from(_: AllocError) -> Self {
        JoinErr::Memory
    }
}
