ghost use Rattle.std.specs.Prelude.{◌≡◌};
ghost use Rattle.bytecode.specs.declared.fault.Stopped.TheVariants as stopped;

use std::alloc::AllocError;

/// Why a text is no code.
#[derive(Clone, Copy)]
pub enum FaultKind {
    /// The text ends too early.
    Truncated,
    /// A number or a name is out of its range.
    BadTag,
    /// The version is another one.
    BadVersion,
    /// The text goes on.
    Trailing,
}

/// The first fault of a text, and at which byte it is.
#[derive(Clone, Copy)]
pub struct DecodeFault {
    pub kind: FaultKind,
    pub place: usize,
}

/// Why there is no code of a text: its first fault, or memory ran short.
#[derive(Clone, Copy)]
pub enum DecodeErr {
    Refused(DecodeFault),
    Memory,
}

/// Why reading stopped: a fault, with the number of bytes from its place on, or memory.
#[derive(Clone, Copy)]
pub(crate) enum Stopped {
    Refused(FaultKind, usize),
    Memory,
}

impl From<AllocError> for Stopped {
    ghost from_gives = { λ _ e. e ≡ stopped.Memory };

    fn from(_: AllocError) -> Self {
        Stopped::Memory
    }
}
