ghost use Rattle.std.specs.Prelude.{◌≡◌, true, IfOk, IfErr, string_bytes};
ghost use Rattle.command_frame.specs.Said.{IsErrorLine};
ghost use Rattle.command_frame.specs.Status.{can_breach, can_refuse};
ghost use Rattle.command_frame.specs.Stops.{status_of, line_of, IsBreachFor, IsFileStop, IsRefusalFor};
ghost use Rattle.command_frame.specs.declared.stop.Stop.TheVariants.{Memory};

use crate::{Breach, Object, Refusal, Status};
use std::alloc::{AllocError, AllocFailed, Global};

/// Why a command stopped before its end.
pub enum Stop {
    /// Memory ran out.
    Memory,
    /// The words name no command.
    Usage,
    /// What was read is refused.
    Refused(Refusal),
    /// A peer, a child or a miner's text is not what it must be.
    Breached(Breach),
    /// An object that the command reaches failed.
    Failed(Object),
}

// Written out, so that an early exit calls this once.
impl Drop for Stop {
    fn drop(self) {
        match self {
            Stop::Memory | Stop::Usage => {}
            Stop::Refused(_) | Stop::Breached(_) | Stop::Failed(_) => {}
        }
    }
}

impl From<AllocError> for Stop {
    ghost from_gives = { λ _ e. e ≡ Memory };

    fn from(_: AllocError) -> Self {
        Stop::Memory
    }
}

impl<T: Drop> From<AllocFailed<T>> for Stop {
    ghost from_gives = { λ _ e. e ≡ Memory };

    fn from(_: AllocFailed<T>) -> Self {
        Stop::Memory
    }
}

impl Stop {
    /// The status that the command ends with.
    pub fn status(&self) -> Status
        ensures { result ≡ status_of self.now }
    {
        match self {
            Stop::Memory => Status::Memory,
            Stop::Usage => Status::Usage,
            Stop::Refused(refusal) => refusal.status,
            Stop::Breached(breach) => breach.status,
            Stop::Failed(object) => object.status(),
        }
    }

    /// The line for the error stream, with its newline.
    #[tactic(auto, unfolding(sc_text::specs::Fault::fault_line, sc_text::specs::Fault::fault_text))]
    pub fn line(&self) -> &[u8]
        ensures { result.now ≡ line_of self.now }
    {
        match self {
            Stop::Memory => b"error: memory\n",
            Stop::Usage => b"error: usage\n",
            Stop::Refused(refusal) => refusal.line.as_bytes(),
            Stop::Breached(breach) => breach.line.as_bytes(),
            Stop::Failed(object) => object.line(),
        }
    }
}

/// That the file at this path could not be read or written; `Memory` where the line can't be made.
#[tactic(auto, unfolding(sc_text::specs::Fault::file_line))]
pub fn file_stop(alloc: Global, path: &str) -> Stop
    ensures { IsFileStop path.now result }
{
    match format!(in alloc; "error: file {path}\n") {
        Ok(line) => Stop::Failed(Object::File(line)),
        Err(_) => Stop::Memory,
    }
}

/// The stop of a refusal with this status and this line; `Memory` where the line could not be made.
pub fn refused(status: Status, line: Result<String, AllocError>) -> Stop
    requires refuses { can_refuse status ≡ true }
    requires says { IfOk line (λ text. IsErrorLine (string_bytes text)) }
    ensures refusal { IfOk line (λ text. IsRefusalFor (record { status = status; line = string_bytes text }) result) }
    ensures memory { IfErr line (λ e. result ≡ Memory) }
{
    match line {
        Ok(line) => Stop::Refused(Refusal { status, line }),
        Err(_) => Stop::Memory,
    }
}

/// The stop of what another miner did, with this status and this line; `Memory` where the line could not be made.
pub fn breached(status: Status, line: Result<String, AllocError>) -> Stop
    requires breaches { can_breach status ≡ true }
    requires says { IfOk line (λ text. IsErrorLine (string_bytes text)) }
    ensures breach { IfOk line (λ text. IsBreachFor (record { status = status; line = string_bytes text }) result) }
    ensures memory { IfErr line (λ e. result ≡ Memory) }
{
    match line {
        Ok(line) => Stop::Breached(Breach { status, line }),
        Err(_) => Stop::Memory,
    }
}
