ghost use Rattle.std.specs.Prelude.{◌≡◌, true, string_bytes};
ghost use Rattle.command_frame.specs.Said.{IsErrorLine};
ghost use Rattle.command_frame.specs.Status.{can_refuse};

use crate::Status;

/// Why what was read is refused: the status, and the line for the error stream with its newline.
#[derive(Drop)]
pub struct Refusal {
    pub status: Status,
    pub line: String,
    pub ghost refuses: { can_refuse status ≡ true },
    pub ghost says: { IsErrorLine (string_bytes line) },
}
