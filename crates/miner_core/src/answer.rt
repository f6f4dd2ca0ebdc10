ghost use Rattle.std.specs.Prelude.{◌≡◌};
ghost use Rattle.miner_core.specs.declared.answer.Lost.TheVariants as lost;

use gate_node::SupplyErr;
use proto_core::{BadMessage, Link};
use sc_text::Ending;
use std::alloc::AllocError;

/// How a miner's run of code ends.
#[derive(Clone, Copy, Drop)]
pub enum End {
    /// As the code ends.
    Over(Ending),
    /// A step was told all that was opened, and wants more words.
    Short,
    /// The code goes on for more steps than code can have whose jumps go forward.
    Endless,
    /// A gate doesn't suit the values before it, or the tape is too short for it.
    Unfit,
}

/// Where a miner stands when it has done all that it can.
#[derive(Clone, Copy, Drop)]
pub enum Step {
    /// For the next message of this link.
    Waits(Link),
    /// At its end.
    Ended(End),
}

/// Why a miner is of no further use.
#[derive(Clone, Copy, Drop)]
pub enum Lost {
    /// There was no memory left.
    Memory,
    /// Words of its tape couldn't be drawn, and their source counted a fault.
    TapeFault,
}

impl From<AllocError> for Lost {
    ghost from_gives = { λ _ l. l ≡ lost.Memory };

    fn from(_: AllocError) -> Self {
        Lost::Memory
    }
}

impl From<SupplyErr> for Lost {
    ghost use Rattle.miner_core.specs.Unsupplied.{lost_by};

    ghost from_gives = { λ e l. l ≡ lost_by e };

    fn from(err: SupplyErr) -> Self {
        match err {
            SupplyErr::Memory => Lost::Memory,
            SupplyErr::Failed => Lost::TapeFault,
        }
    }
}

/// Why a message leads nowhere.
#[derive(Clone, Copy, Drop)]
pub enum MinerErr {
    /// The miner has ended.
    NotAwaited { link: Link },
    /// The oldest message of this link, which is awaited, hasn't the length that is wanted, or a word that has to be a bit and is none. The
    /// cause says which, with both lengths, or with the word's place and the word: it is what the protocol says that refuses the message.
    BadMessage { link: Link, cause: BadMessage },
    /// The miner is of no further use, for this cause.
    Lost(Lost),
}
