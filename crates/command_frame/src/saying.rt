ghost use Rattle.std.specs.Prelude.{◌≡◌, OnOk, IsErrOf};
ghost use Rattle.outside.specs.Causes.{Rose};
ghost use Rattle.outside.specs.declared.error.FileErr.TheVariants.{Failed};
ghost use Rattle.command_frame.specs.Whole.{Says, SaysAll, status_in};

use crate::{Status, Stop};
use outside::{FileErr, Sink, put_all};

/// Says why a command stopped, on the error stream, and answers how that went.
pub fn say<E: Sink>(err: &mut E, ended: &Result<Status, Stop>) -> Result<(), FileErr>
    ensures ok { OnOk result (SaysAll ended.now (E.state err.old) (E.state err.new)) }
    ensures failed { IsErrOf result Failed → Rose (E.state err.old).faults (E.state err.new).faults }
    ensures said { Says ended.now (E.state err.old) (E.state err.new) }
{
    match ended {
        Ok(_) => Ok(()),
        Err(stop) => put_all(err, stop.line()),
    }
}

/// The status that a command ends with.
pub fn ended_status(ended: &Result<Status, Stop>) -> Status
    ensures { result ≡ status_in ended.now }
{
    match ended {
        Ok(status) => *status,
        Err(stop) => stop.status(),
    }
}
