// The exit status of a run's end.
ghost use Rattle.std.specs.Prelude.{◌≡◌};
ghost use Rattle.program_commands.specs.Ends.{ending_status};

use command_frame::Status;
use sc_text::Ending;

/// The exit status of a run's end.
pub fn ending_status(how: Ending) -> Status
    ensures { result ≡ ending_status how }
{
    match how {
        Ending::Done => Status::Done,
        Ending::Trap { .. } => Status::Trap,
        Ending::Budget => Status::Budget,
        Ending::Tape { .. } => Status::Tape,
    }
}
