// Why no words of a tape were supplied.
ghost use Rattle.std.specs.Prelude.{◌≡◌};
ghost use Rattle.gate_node.specs.declared.supply_err.SupplyErr.TheVariants as refused;

use outside::Failed;
use std::alloc::AllocError;

/// Why no words of a tape were supplied.
#[derive(Clone, Copy, Drop)]
pub enum SupplyErr {
    /// There was no memory left.
    Memory,
    /// They couldn't be drawn, and their source counted a fault.
    Failed,
}

impl From<AllocError> for SupplyErr {
    ghost from_gives = { λ _ e. e ≡ refused.Memory };

    fn from(_: AllocError) -> Self {
        SupplyErr::Memory
    }
}

impl From<Failed> for SupplyErr {
    ghost from_gives = { λ _ e. e ≡ refused.Failed };

    fn from(_: Failed) -> Self {
        SupplyErr::Failed
    }
}
