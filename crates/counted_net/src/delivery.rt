// In which order messages are delivered, and why an order is refused.
ghost use Rattle.std.specs.Prelude.{◌≡◌};
ghost use Rattle.counted_net.specs.declared.delivery.DeliveryErr.TheVariants.{Memory};

use proto_core::{Link, Number};
use std::alloc::AllocError;

/// In which order the miners' messages are delivered.
pub enum Delivery {
    /// Always on the first link, in the order 12, 13, 21, 23, 31, 32, on which a message is under way.
    InTurn,
    /// On these links.
    Scheduled(Vec<Link>),
    /// On a link that the words of a seed choose, among those on which a message is under way.
    Shuffled([u8; 32]),
}

// Written out, so that an early exit calls this once.
impl Drop for Delivery {
    fn drop(self) {
        match self {
            Delivery::InTurn | Delivery::Scheduled(_) | Delivery::Shuffled(_) => {}
        }
    }
}

/// Why a run under a schedule gives nothing.
#[derive(Clone, Copy)]
pub enum DeliveryErr {
    /// The entry of this number, from 0, has a link of which all messages that were sent were delivered before.
    EmptyLink { entry: u64, link: Link, sent: u64 },
    /// After the last entry this miner, the lowest that hasn't ended, still waits for a message on this link.
    Stalled { miner: Number, link: Link },
    /// There is no memory left.
    Memory,
}

impl From<AllocError> for DeliveryErr {
    ghost from_gives = { λ _ e. e ≡ Memory };

    fn from(_error: AllocError) -> DeliveryErr {
        DeliveryErr::Memory
    }
}
