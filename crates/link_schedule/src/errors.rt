// Why a delivery or a schedule leads nowhere.
ghost use Rattle.std.specs.Prelude.{◌≡◌};
ghost use Rattle.link_schedule.specs.declared.errors.DeliverErr.TheVariants as delivering;

use miner_core::Lost;
use proto_core::{Link, Number};

/// Why nothing was delivered.
#[derive(Clone, Copy, Drop)]
pub enum DeliverErr {
    /// All messages of the link that were sent, this many, are delivered. The entry is how many deliveries there were before.
    EmptyLink { entry: u64, link: Link, sent: u64 },
    /// The net is of no further use, for this cause.
    Lost(Lost),
}

impl From<Lost> for DeliverErr {
    ghost from_gives = { λ l e. e ≡ delivering.Lost l };

    fn from(lost: Lost) -> Self {
        DeliverErr::Lost(lost)
    }
}

/// Why a schedule isn't accepted.
#[derive(Clone, Copy, Drop)]
pub enum RunErr {
    /// At this entry all messages of the link that were sent, this many, were delivered. Entries are counted from the net's first delivery.
    EmptyLink { entry: u64, link: Link, sent: u64 },
    /// After the last entry this miner, the lowest of those that wait, waits for the next message of this link.
    Stalled { miner: Number, link: Link },
    /// The net is of no further use, for this cause.
    Lost(Lost),
}
