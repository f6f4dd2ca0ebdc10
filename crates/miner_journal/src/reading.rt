// Bytes of a journal, and its records.
ghost use Rattle.std.specs.Prelude.{◌≡◌, ◌+◌, ◌^◌, ◌<◌, ◌≤◌, length, true, IsSomeAnd, OnOk};
ghost use Rattle.outside.specs.Causes.{HasCause};
ghost use Rattle.kept_disk.specs.Disk.{SameDisk, AreAt};

use kept_disk::Disk;
use outside::FileErr;

/// Fills the slice with the file's bytes from a place on; all of them lie below the size that was answered.
pub(crate) fn read_all<D: Disk>(disk: &mut D, from: u64, into: &mut [u8]) -> Result<(), FileErr>
    requires attached { (D.state disk.old).attached ≡ true }
    requires sized { IsSomeAnd (D.state disk.old).size (λ n. from + length into.old ≤ n) }
    requires fits { from + length into.old < 2 ^ 64 }
    ensures ok { OnOk result (AreAt (D.state disk.old) from into.new) }
    ensures same { SameDisk (D.state disk.old) (D.state disk.new) }
    ensures cause { HasCause (D.state disk.old).faults (D.state disk.new).faults result }
{
    let mut done = 0;
    while done < into.len() {
        done += disk.read_at(from + done as u64, &mut into[done..])?;
    }
    Ok(())
}
