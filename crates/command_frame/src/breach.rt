ghost use Rattle.std.specs.Prelude.{◌≡◌, true, string_bytes};
ghost use Rattle.command_frame.specs.Said.{IsErrorLine};
ghost use Rattle.command_frame.specs.Status.{can_breach};

use crate::Status;

/// What another miner did that stops a command: the status, and the line for the error stream with its newline.
#[derive(Drop)]
pub struct Breach {
    pub status: Status,
    pub line: String,
    pub ghost breaches: { can_breach status ≡ true },
    pub ghost says: { IsErrorLine (string_bytes line) },
}
