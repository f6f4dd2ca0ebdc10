// Why a launch fails.
ghost use Rattle.std.specs.Prelude.{◌≡◌};
ghost use Rattle.trio.specs.Children.{fault_in};
ghost use Rattle.trio.specs.declared.child_err.ChildErr.TheVariants.{Memory};

use outside::SpawnErr;
use proto_core::Number;
use std::alloc::AllocError;

/// Why three miners did not all run to their end.
#[derive(Clone, Copy, Debug)]
pub enum ChildErr {
    /// A miner could not be started, or not be waited for.
    Fault,
    /// This miner ended with a status that no end of a run has.
    Status { miner: Number, status: i32 },
    /// Memory ran short.
    Memory,
}

impl From<AllocError> for ChildErr {
    ghost from_gives = { λ _ e. e ≡ Memory };

    fn from(_: AllocError) -> Self {
        ChildErr::Memory
    }
}

impl From<SpawnErr> for ChildErr {
    ghost from_gives = { λ err e. e ≡ fault_in err };

    fn from(err: SpawnErr) -> Self {
        match err {
            SpawnErr::Failed => ChildErr::Fault,
            SpawnErr::Memory => ChildErr::Memory,
        }
    }
}
