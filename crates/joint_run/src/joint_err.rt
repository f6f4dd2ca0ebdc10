// Why there is no joint run.
ghost use Rattle.std.specs.Prelude.{◌≡◌};
ghost use Rattle.joint_run.specs.declared.joint_err.JointErr.TheVariants.{Memory};

use proto_core::Number;
use std::alloc::AllocError;

/// Why a list of gates can't be run.
#[derive(Debug, Drop)]
pub enum JointErr {
    /// There is no memory left.
    Memory,
    /// The three miners were dealt different numbers of values, or shares of different sizes.
    Dealt,
    /// The gate of this place in the list, from 0, names a value that isn't there, or of a size that it does not take.
    Unsuited {
        place: usize,
    },
    /// Within the gate of this place a miner's tape ends: the gate needs so many words, and the tape has only so many. Of several
    /// miners the first is told.
    TapeEnds {
        place: usize,
        miner: Number,
        need: u128,
        have: usize,
    },
}

impl From<AllocError> for JointErr {
    ghost from_gives = { λ _ e. e ≡ Memory };

    fn from(_refused: AllocError) -> Self {
        JointErr::Memory
    }
}
