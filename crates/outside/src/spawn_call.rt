// The calls of a spawner.
ghost use Rattle.std.specs.Prelude.{◌≡◌};

use crate::HeldFiles;

/// A call of a spawner that was answered.
#[derive(Debug, Drop)]
pub enum SpawnCall {
    /// A child was started with these words, and got this number; the store held this then.
    Started {
        words: Vec<String>,
        child: u32,
        held: HeldFiles,
    },
    /// A child was waited for.
    Awaited(u32),
}

impl SpawnCall {
    ghost use Rattle.outside.specs.SpawnCall.{call_of, starts_child};

    /// Whether the call started this child.
    pub fn starts(&self, child: u32) -> bool
        ensures { result ≡ starts_child (call_of self.now) child }
    {
        match self {
            SpawnCall::Started { child: number, .. } => *number == child,
            SpawnCall::Awaited(_) => false,
        }
    }
}
