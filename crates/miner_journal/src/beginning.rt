// A journal is begun.
ghost use Rattle.std.specs.Prelude.{◌≡◌, ◌<◌, ◌∷◌, ◌++◌, [], ℕ, false, length, true, OnOk};
ghost use Rattle.outside.specs.Causes.{HasCause};
ghost use Rattle.kept_disk.specs.Disk.{OnlyHeld, held};
ghost use Rattle.kept_disk.specs.Images.{EachMoment, settled};
ghost use Rattle.miner_journal.specs.Format.{IsSettled, StandsFor, is_begun};
ghost use Rattle.miner_journal.specs.Calls.{CanBeFilled};

use crate::synced::write_synced;
use kept_disk::Disk;
use outside::FileErr;

/// Writes a 0 at the beginning of the attached file, which has under 98 bytes.
pub(crate) fn clear<D: Disk>(disk: &mut D) -> Result<(), FileErr>
    requires attached { (D.state disk.old).attached ≡ true }
    ensures each { (D.state disk.old).told ≡ true → length (held (D.state disk.old)).seen < 98 →
        (held (D.state disk.old)).now ≡ settled (held (D.state disk.old)).seen → EachMoment (held (D.state disk.old)) (held (D.state disk.new)) (λ c. is_begun c ≡ false) }
    ensures ok { OnOk result ((D.state disk.old).told ≡ true → length (held (D.state disk.old)).seen < 98 →
        (held (D.state disk.old)).now ≡ settled (held (D.state disk.old)).seen → CanBeFilled (held (D.state disk.new))) }
    ensures only { OnlyHeld (D.state disk.old) (D.state disk.new) }
    ensures cause { HasCause (D.state disk.old).faults (D.state disk.new).faults result }
{
    write_synced(disk, 0, &[0])
}

// Digests, and a closed gate after them.
fn with_gate(sums: &[u8; 96]) -> [u8; 97]
    ensures { result ≡ sums.now ++ 0 ∷ [] }
{
    let mut body = [0; 97];
    body[..96].copy_from_slice(sums);
    body
}

/// Writes digests and a closed gate after a first gate that isn't open, and then opens the first gate; each with a sync after it.
pub(crate) fn fill<D: Disk>(disk: &mut D, sums: &[u8; 96]) -> Result<(), FileErr>
    requires attached { (D.state disk.old).attached ≡ true }
    // A crash at any moment leaves a journal that isn't begun, or one with these digests and no record.
    ensures each { (D.state disk.old).told ≡ true → CanBeFilled (held (D.state disk.old)) →
        EachMoment (held (D.state disk.old)) (held (D.state disk.new)) (StandsFor sums.now []) }
    ensures ok { OnOk result ((D.state disk.old).told ≡ true → CanBeFilled (held (D.state disk.old)) → IsSettled sums.now [] (held (D.state disk.new)) 97) }
    ensures only { OnlyHeld (D.state disk.old) (D.state disk.new) }
    ensures cause { HasCause (D.state disk.old).faults (D.state disk.new).faults result }
{
    write_synced(disk, 1, &with_gate(sums))?;
    write_synced(disk, 0, &[1])
}
