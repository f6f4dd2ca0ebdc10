// A disk, as a journal needs it: one file at a time, and what a crash may leave of each.
ghost use Rattle.std.specs.Prelude.{◌≡◌, ◌<◌, ◌≤◌, length, take, true, Some, IfOk, OnOk, OnErr, IsErrOf};
ghost use Rattle.outside.specs.Causes.{HasCause, IsSteady};
ghost use Rattle.outside.specs.declared.error.FileErr.TheVariants.{Failed as CallFailed, Memory as NoMemory};
ghost use Rattle.kept_disk.specs.Disk.{DiskState, SameFiles, SameFile, SameHold, SameDisk, OnlyHeld, Attached};
ghost use Rattle.kept_disk.specs.Disk.{Wrote, Tore, Synced, Unsynced, IsBelow, AreAt, held};

use outside::FileErr;

/// A disk with one attached file at a time. What a read gives is always something that a crash may leave.
///
/// Where contents are told, each call says what it does to them, whether it succeeds, fails or has no memory; one that has none leaves all as it was.
pub trait Disk {
    ghost state: { Self → DiskState };

    /// Attaches the file at this path, from now on the one that is read and written. No byte changes. A file that isn't there counts as empty.
    fn attach(&mut self, path: &str) -> Result<(), FileErr>
        ensures ok { OnOk result (Attached (state self.new) path.now) }
        ensures err { OnErr result (SameHold (state self.old) (state self.new)) }
        ensures kept { SameFiles (state self.old) (state self.new) }
        ensures cause { HasCause (state self.old).faults (state self.new).faults result }
        ensures steady { (state self.old).steady ≡ true →
            IsSteady (state self.old).faults (state self.new).faults result ⊥ }
        ensures still { (state self.old).steady ≡ true → (state self.new).steady ≡ true };

    /// How many bytes the attached file has. Below that size `read_at` gives at least one byte from then on.
    fn len(&mut self) -> Result<u64, FileErr>
        requires { (state self.old).attached ≡ true }
        ensures ok { IfOk result (λ n. (state self.new).size ≡ Some n) }
        ensures size { IfOk result (λ n. (state self.old).told ≡ true → n ≡ length (held (state self.old)).seen) }
        ensures err { OnErr result ((state self.new).size ≡ (state self.old).size) }
        ensures kept { SameFile (state self.old) (state self.new) }
        ensures cause { HasCause (state self.old).faults (state self.new).faults result }
        ensures steady { (state self.old).steady ≡ true →
            IsSteady (state self.old).faults (state self.new).faults result ⊥ }
        ensures still { (state self.old).steady ≡ true → (state self.new).steady ≡ true };

    /// Puts the attached file's bytes from the place `from` on at the front of the slice, and answers how many: at least one where the slice has room
    /// for one and `from` is below the size that `len` last answered, else none.
    fn read_at(&mut self, from: u64, into: &mut [u8]) -> Result<usize, FileErr>
        requires { (state self.old).attached ≡ true }
        ensures most { IfOk result (λ k. k ≤ length into.old) }
        ensures some { IfOk result (λ k. 0 < length into.old → IsBelow (state self.old).size from → 0 < k) }
        ensures none { IfOk result (λ k. 0 < k → IsBelow (state self.old).size from) }
        ensures bytes { IfOk result (λ k. AreAt (state self.old) from (take k into.new)) }
        ensures kept { SameDisk (state self.old) (state self.new) }
        ensures cause { HasCause (state self.old).faults (state self.new).faults result }
        ensures steady { (state self.old).steady ≡ true →
            IsSteady (state self.old).faults (state self.new).faults result ⊥ }
        ensures still { (state self.old).steady ≡ true → (state self.new).steady ≡ true };

    /// Writes these bytes from the place `from` on, all of them. Until a sync a crash may leave any bytes there, also where the call failed.
    fn write_at(&mut self, from: u64, bytes: &[u8]) -> Result<(), FileErr>
        requires { (state self.old).attached ≡ true }
        ensures ok { OnOk result ((state self.old).told ≡ true → Wrote (held (state self.old)) (held (state self.new)) from bytes.now) }
        ensures failed { IsErrOf result CallFailed → (state self.old).told ≡ true →
            Tore (held (state self.old)) (held (state self.new)) from (length bytes.now) }
        ensures memory { IsErrOf result NoMemory → held (state self.new) ≡ held (state self.old) }
        ensures only { OnlyHeld (state self.old) (state self.new) }
        ensures size { (state self.new).size ≡ (state self.old).size }
        ensures cause { HasCause (state self.old).faults (state self.new).faults result }
        ensures steady { (state self.old).steady ≡ true →
            IsSteady (state self.old).faults (state self.new).faults result ⊥ }
        ensures still { (state self.old).steady ≡ true → (state self.new).steady ≡ true };

    /// Brings all that was written to the disk.
    fn sync(&mut self) -> Result<(), FileErr>
        requires { (state self.old).attached ≡ true }
        ensures ok { OnOk result ((state self.old).told ≡ true → Synced (held (state self.old)) (held (state self.new))) }
        ensures failed { IsErrOf result CallFailed → (state self.old).told ≡ true → Unsynced (held (state self.old)) (held (state self.new)) }
        ensures memory { IsErrOf result NoMemory → held (state self.new) ≡ held (state self.old) }
        ensures only { OnlyHeld (state self.old) (state self.new) }
        ensures size { (state self.new).size ≡ (state self.old).size }
        ensures cause { HasCause (state self.old).faults (state self.new).faults result }
        ensures steady { (state self.old).steady ≡ true →
            IsSteady (state self.old).faults (state self.new).faults result ⊥ }
        ensures still { (state self.old).steady ≡ true → (state self.new).steady ≡ true };
}
