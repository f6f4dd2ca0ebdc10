ghost use Rattle.std.specs.Prelude.{◌≡◌};
ghost use Rattle.reached_instances.specs.declared.limit_err.LimitErr.TheVariants.{Memory};
ghost use Rattle.reached_instances.specs.LimitRefusals.{fault_said};

use sc_text::{CountedFault, Fault};
use std::alloc::AllocError;

/// Why a program can't be run: what it has too much of, and how much.
#[derive(Clone, Copy)]
pub enum LimitErr {
    /// It reaches more than 1,024 instances of templates.
    TooManyInstances { count: u64 },
    /// The sizes of all instances that it reaches add up to more than 65,535 nodes and parameters; 18,446,744,073,709,551,615 stands
    /// for more.
    ProgramTooLarge { size: u64 },
    /// A function that it reaches has more than 4,095 nodes and parameters.
    FunctionTooLarge { size: u64 },
    /// Memory ran short.
    Memory,
}

impl From<AllocError> for LimitErr {
    ghost from_gives = { λ _ e. e ≡ Memory };

    fn from(_: AllocError) -> Self {
        LimitErr::Memory
    }
}

/// The fault whose line a command says.
impl From<LimitErr> for Fault {
    ghost from_gives = { λ error fault. fault ≡ fault_said error };

    fn from(error: LimitErr) -> Self {
        match error {
            LimitErr::TooManyInstances { count } => Fault::Counted {
                fault: CountedFault::TooManyInstances,
                count,
            },
            LimitErr::ProgramTooLarge { size } => Fault::Counted {
                fault: CountedFault::ProgramTooLarge,
                count: size,
            },
            LimitErr::FunctionTooLarge { size } => Fault::Counted {
                fault: CountedFault::FunctionTooLarge,
                count: size,
            },
            LimitErr::Memory => Fault::Memory,
        }
    }
}
