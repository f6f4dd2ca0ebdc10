// A journal is opened.
ghost use Rattle.std.specs.Prelude.{◌≡◌, ◌≤◌, [], true, IfErr, IfNone, OnOk};
ghost use Rattle.outside.specs.Causes.{HasCause};
ghost use Rattle.kept_disk.specs.Disk.{OnlyHeld, held};
ghost use Rattle.kept_disk.specs.Images.{EachMoment};
ghost use Rattle.miner_journal.specs.Format.{IsSettled, StandsFor, is_begun};
ghost use Rattle.miner_journal.specs.Begins.{FromSync, Holds, IsOpened, IsUnopened, IsWaiting, OnlyAt, first_other};

use crate::beginning::{clear, fill};
use crate::journal_err::{JournalErr, KeptFile};
use crate::looking::look;
use kept_disk::Disk;
use outside::FileErr;

/// The first file whose digests differ in two lists of digests.
pub(crate) fn other_file(ours: &[u8; 96], theirs: &[u8; 96]) -> Option<KeptFile>
    ensures first { result ≡ first_other ours.now theirs.now }
    ensures same { IfNone result (ours.now ≡ theirs.now) }
{
    if ours[..32] != theirs[..32] {
        Some(KeptFile::Code)
    } else if ours[32..64] != theirs[32..64] {
        Some(KeptFile::Share)
    } else if ours[64..] != theirs[64..] {
        Some(KeptFile::Tape)
    } else {
        None
    }
}

/// Begins a journal that isn't begun, in the attached file; all of it is on the disk.
pub(crate) fn begin_anew<D: Disk>(disk: &mut D, short: bool, sums: &[u8; 96]) -> Result<(), FileErr>
    requires attached { (D.state disk.old).attached ≡ true }
    ensures only { OnlyHeld (D.state disk.old) (D.state disk.new) }
    ensures each { (D.state disk.old).told ≡ true → IsWaiting short (held (D.state disk.old)) →
        EachMoment (held (D.state disk.old)) (held (D.state disk.new)) (StandsFor sums.now []) }
    ensures ok { OnOk result ((D.state disk.old).told ≡ true → IsWaiting short (held (D.state disk.old)) →
        IsSettled sums.now [] (held (D.state disk.new)) 97) }
    ensures cause { HasCause (D.state disk.old).faults (D.state disk.new).faults result }
{
    if short {
        clear(disk)?;
        return fill(disk, sums);
    }
    fill(disk, sums)
}

/// Opens a journal of three files with these digests: it is begun where it isn't. Its records are then to be read from place 97 on.
pub(crate) fn open<D: Disk>(disk: &mut D, path: &str, sums: &[u8; 96]) -> Result<(), JournalErr>
    // From the first sync on that succeeded a crash at any moment leaves what was read, where a journal was begun, else one that isn't or that has no record.
    ensures since { (D.state disk.old).told ≡ true → FromSync ((D.state disk.old).files path.now) ((D.state disk.new).files path.now) sums.now }
    ensures ok { OnOk result ((D.state disk.old).told ≡ true → IsOpened (is_begun ((D.state disk.old).files path.now).seen) sums.now
        ((D.state disk.old).files path.now) ((D.state disk.new).files path.now)) }
    ensures err { IfErr result (IsUnopened (D.state disk.old) (D.state disk.new) path.now sums.now) }
    ensures holds { OnOk result (Holds (D.state disk.new) path.now) }
    ensures only { OnlyAt (D.state disk.old) (D.state disk.new) path.now }
    ensures later { (D.state disk.old).faults ≤ (D.state disk.new).faults }
{
    let found = look(disk, path)?;
    if !found.begun {
        return Ok(begin_anew(disk, found.short, sums)?);
    }
    match other_file(sums, &found.sums) {
        Some(file) => Err(JournalErr::OtherFile { file }),
        None => Ok(()),
    }
}
