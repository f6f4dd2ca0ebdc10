// Why there is no view.
ghost use Rattle.std.specs.Prelude.{◌≡◌};
ghost use Rattle.client_simulator.specs.declared.simulate_err.SimulateErr.TheVariants.{Memory};

use std::alloc::AllocError;

/// Why the simulator makes no view.
#[derive(Clone, Copy)]
pub enum SimulateErr {
    /// An opened value wanted more words than were left; `have` were told in all.
    OpenedShort { have: u64 },
    /// A value that is handed over wanted more words than were left; `have` were told in all.
    PublishedShort { have: u64 },
    /// There is no memory left.
    Memory,
}

impl From<AllocError> for SimulateErr {
    ghost from_gives = { λ _ e. e ≡ Memory };

    fn from(_error: AllocError) -> SimulateErr {
        SimulateErr::Memory
    }
}
