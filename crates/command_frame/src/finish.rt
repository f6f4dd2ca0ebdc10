ghost use Rattle.std.specs.Prelude.{OnOk, IfErr};
ghost use Rattle.command_frame.specs.Answer.{effect_of, writes_of, paths_in};
ghost use Rattle.command_frame.specs.Finish.{OnlyAmong, WroteAll, StopsWriting, Finishes};

use crate::writing::write_file;
use crate::{Object, Plan, PlannedWrite, Status, Stop};
use outside::{FileErr, Files, Sink, put_all};
use std::alloc::Global;

/// Writes the files in order.
///
/// `Failed` where one could not be written, `Memory` where there was no memory for it: those before it are written, that one holds any bytes,
/// and none after it was begun.
pub fn write_files<F: Files>(
    alloc: Global,
    files: &mut F,
    writes: &[PlannedWrite],
) -> Result<(), Stop>
    ensures ok { OnOk result (WroteAll (writes_of writes.now) (F.state files.old) (F.state files.new)) }
    ensures only { OnlyAmong (paths_in (writes_of writes.now)) (F.state files.old) (F.state files.new) }
    ensures err { IfErr result (StopsWriting (writes_of writes.now) (F.state files.old) (F.state files.new)) }
{
    for entry in writes {
        if let Err(stop) = write_file(alloc, files, entry) {
            return Err(stop);
        }
    }
    Ok(())
}

/// Writes the plan's files in order, then puts its text on `out`, and answers its status.
///
/// `Failed` where a file could not be written: none after it was begun and `out` is as before; or where the output failed: all
/// files are written, and it holds a prefix of the text. `Memory` for the same reasons, each for want of memory.
pub fn finish_plan<F: Files, O: Sink>(
    alloc: Global,
    files: &mut F,
    out: &mut O,
    plan: &Plan,
) -> Result<Status, Stop>
    ensures only { OnlyAmong (paths_in (effect_of plan.now).writes) (F.state files.old) (F.state files.new) }
    ensures finishes { Finishes (effect_of plan.now) (F.state files.old) (F.state files.new) (O.state out.old) (O.state out.new) result }
{
    write_files(alloc, files, &plan.writes)?;
    match put_all(out, &plan.text) {
        Ok(()) => Ok(plan.status),
        Err(FileErr::Memory) => Err(Stop::Memory),
        Err(FileErr::Failed) => Err(Stop::Failed(Object::Output)),
    }
}
