// A record is kept.
ghost use Rattle.std.specs.Prelude.{◌≡◌, ◌<◌, ◌+◌, ◌-◌, ◌^◌, ◌++◌, ◌∷◌, [], ℕ, List, length, true, OnOk};
ghost use Rattle.outside.specs.Causes.{HasCause};
ghost use Rattle.kept_disk.specs.Disk.{OnlyHeld, held};
ghost use Rattle.wire.specs.Frames.{IsFrameable};
ghost use Rattle.kept_disk.specs.Images.{EachMoment};
ghost use Rattle.kept_frames.specs.Kept.{Kept};
ghost use Rattle.miner_journal.specs.Format.{IsSettled, WithOrWithout, record_bytes};

use crate::synced::write_synced;
use kept_disk::Disk;
use outside::FileErr;

/// Writes a record's body and a closed gate after the closed gate at this place, and then opens the gate at this place; each with a sync after it.
pub(crate) fn keep_body<D: Disk>(disk: &mut D, place: u64, body: &[u8]) -> Result<(), FileErr>
    requires room { place < 2 ^ 64 - 1 }
    requires attached { (D.state disk.old).attached ≡ true }
    // A crash at any moment leaves the records from before, with the new one or without.
    ensures each { (D.state disk.old).told ≡ true → (sums : List ℕ) (rs : List Kept) (a : Kept) → IsFrameable a.words →
        body.now ≡ record_bytes a ++ 0 ∷ [] → IsSettled sums rs (held (D.state disk.old)) place →
        EachMoment (held (D.state disk.old)) (held (D.state disk.new)) (WithOrWithout sums rs a) }
    // Once it is kept, it is there.
    ensures ok { OnOk result ((D.state disk.old).told ≡ true → (sums : List ℕ) (rs : List Kept) (a : Kept) → IsFrameable a.words →
        body.now ≡ record_bytes a ++ 0 ∷ [] → IsSettled sums rs (held (D.state disk.old)) place →
        IsSettled sums (rs ++ a ∷ []) (held (D.state disk.new)) (place + 1 + length (record_bytes a))) }
    ensures only { OnlyHeld (D.state disk.old) (D.state disk.new) }
    ensures cause { HasCause (D.state disk.old).faults (D.state disk.new).faults result }
{
    write_synced(disk, place + 1, body)?;
    write_synced(disk, place, &[1])
}
