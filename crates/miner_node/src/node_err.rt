// Why a node has no text.
ghost use Rattle.std.specs.Prelude.{◌≡◌};
ghost use Rattle.miner_node.specs.declared.node_err.NodeErr.TheVariants.{Memory, BadFrame as NoFrame};
ghost use Rattle.miner_node.specs.Faults.{unsent};

use outside::FileErr;
use proto_core::{BadMessage, Link};
use std::alloc::AllocError;
use wire::{BadFrame, Field, Hello};

/// Why a node stopped before its end.
#[derive(Clone, Copy, Drop)]
pub enum NodeErr {
    /// A call of the links failed, and they counted a fault.
    LinkFault,
    /// A peer's hello isn't the one that it has to send: `field` is the first field that differs, `mine` the hello that was expected of this
    /// peer, and `theirs` the one that came.
    PeerMismatch {
        field: Field,
        mine: Hello,
        theirs: Hello,
    },
    /// The bytes that came where a hello or a frame is awaited are none. `place` is the first byte that is wrong: 0 for the one that tells what
    /// it is, 1 for a count of words that is 0 or over 2,048.
    BadFrame {
        place: u64,
    },
    /// The message that came on the awaited link is refused, for this cause.
    BadMessage {
        link: Link,
        cause: BadMessage,
    },
    /// There is no memory left. It stands as well for ends that code which was verified never has.
    Memory,
}

/// Why a node stopped before its end whose miner draws its tape from a source.
#[derive(Drop)]
pub enum ServeErr {
    /// As any node stops.
    Node(NodeErr),
    /// Words of the miner's tape couldn't be drawn, and their source counted a fault.
    TapeFault,
}

impl From<AllocError> for NodeErr {
    ghost from_gives = { λ _ e. e ≡ Memory };

    fn from(_: AllocError) -> Self {
        NodeErr::Memory
    }
}

impl From<FileErr> for NodeErr {
    ghost from_gives = { λ refused e. e ≡ unsent refused };

    fn from(refused: FileErr) -> Self {
        match refused {
            FileErr::Failed => NodeErr::LinkFault,
            FileErr::Memory => NodeErr::Memory,
        }
    }
}

impl From<BadFrame> for NodeErr {
    ghost from_gives = { λ bad e. e ≡ NoFrame bad.place };

    fn from(bad: BadFrame) -> Self {
        NodeErr::BadFrame { place: bad.place }
    }
}
