// Why there is no view.
ghost use Rattle.std.specs.Prelude.{◌≡◌};
ghost use Rattle.view_simulator.specs.declared.errors.SimulateErr.TheVariants.{Memory};
ghost use Rattle.view_simulator.specs.Refusals.{told_refusal, net_refusal};

use clear_eval::BlindErr;
use counted_net::DeliveryErr;
use proto_core::{Link, Number};
use std::alloc::AllocError;

/// Why the simulator makes no view.
#[derive(Clone, Copy)]
pub enum SimulateErr {
    /// An opened value wanted more words than were left; `have` were told in all.
    OpenedShort { have: u64 },
    /// The entry of this number, from 0, has a link of which all messages that were sent were delivered before.
    EmptyLink { entry: u64, link: Link, sent: u64 },
    /// After the last entry this miner, the lowest that hasn't ended, still waits for a message on this link.
    Stalled { miner: Number, link: Link },
    /// There is no memory left.
    Memory,
}

impl From<AllocError> for SimulateErr {
    ghost from_gives = { λ _ e. e ≡ Memory };

    fn from(_error: AllocError) -> SimulateErr {
        SimulateErr::Memory
    }
}

impl From<BlindErr> for SimulateErr {
    ghost from_gives = { λ error e. e ≡ told_refusal error };

    fn from(error: BlindErr) -> SimulateErr {
        match error {
            BlindErr::OpenedShort { have } => SimulateErr::OpenedShort { have },
            BlindErr::Memory => SimulateErr::Memory,
        }
    }
}

impl From<DeliveryErr> for SimulateErr {
    ghost from_gives = { λ error e. e ≡ net_refusal error };

    fn from(error: DeliveryErr) -> SimulateErr {
        match error {
            DeliveryErr::EmptyLink { entry, link, sent } => {
                SimulateErr::EmptyLink { entry, link, sent }
            }
            DeliveryErr::Stalled { miner, link } => SimulateErr::Stalled { miner, link },
            DeliveryErr::Memory => SimulateErr::Memory,
        }
    }
}
