// A store of files, by path.
ghost use Rattle.std.specs.Prelude.{◌≡◌, ◌<◌, ◌≤◌, true, Some, length, take, IfOk, OnOk, OnErr};
ghost use Rattle.outside.specs.Causes.{HasCause, HasLinkCause, IsSteady, IsSteadyLink};
ghost use Rattle.outside.specs.Files.{FilesState, SameFiles, SameSizes, Wrote, OnlyAt, IsMissing, file_at};
ghost use Rattle.outside.specs.Files.{Sized, IsBelow, BytesFrom, EndsBefore, Appended, told_contents};
ghost use Rattle.outside.specs.HeldFiles.{held_in};

use crate::{Failed, FileErr, HeldFiles};
use std::alloc::{AllocError, Global};

/// A store of files, by path.
pub trait Files {
    ghost state: { Self → FilesState };

    /// What the store holds, where it tells that: it is no call of the store.
    fn held(&self, alloc: Global) -> Result<HeldFiles, AllocError>
        ensures { IfOk result (λ held. held_in held ≡ told_contents (state self.now)) };

    /// The bytes of a file. A missing file is a fault.
    fn read(&mut self, alloc: Global, path: &str) -> Result<Vec<u8>, FileErr>
        ensures bytes { IfOk result (λ v. (state self.old).told ≡ true → file_at (state self.old).contents path.now ≡ Some v.items) }
        ensures kept { SameFiles (state self.old) (state self.new) }
        ensures sizes { SameSizes (state self.old) (state self.new) }
        ensures cause { HasCause (state self.old).faults (state self.new).faults result }
        ensures steady { (state self.old).steady ≡ true →
            IsSteady (state self.old).faults (state self.new).faults result (IsMissing (state self.old) path.now) }
        ensures still { (state self.old).steady ≡ true → (state self.new).steady ≡ true };

    /// Puts these bytes in the place of the file's. After an error that file may hold any bytes.
    fn write(&mut self, alloc: Global, path: &str, bytes: &[u8]) -> Result<(), FileErr>
        ensures ok { OnOk result (Wrote (state self.old) (state self.new) path.now bytes.now) }
        ensures only { OnlyAt (state self.old) (state self.new) path.now }
        ensures sizes { SameSizes (state self.old) (state self.new) }
        ensures cause { HasCause (state self.old).faults (state self.new).faults result }
        ensures steady { (state self.old).steady ≡ true →
            IsSteady (state self.old).faults (state self.new).faults result ⊥ }
        ensures still { (state self.old).steady ≡ true → (state self.new).steady ≡ true };

    /// How many bytes a file has. Below that size `read_at` gives at least one byte from then on. A missing file
    /// is a fault.
    fn size(&mut self, path: &str) -> Result<u64, Failed>
        ensures ok { IfOk result (λ n. Sized (state self.old) (state self.new) path.now n) }
        ensures err { OnErr result (SameSizes (state self.old) (state self.new)) }
        ensures kept { SameFiles (state self.old) (state self.new) }
        ensures cause { HasLinkCause (state self.old).faults (state self.new).faults result }
        ensures steady { (state self.old).steady ≡ true →
            IsSteadyLink (state self.old).faults (state self.new).faults result (IsMissing (state self.old) path.now) }
        ensures still { (state self.old).steady ≡ true → (state self.new).steady ≡ true };

    /// Puts the file's bytes from the place `from` on at the front of the slice, and answers how many: at least one
    /// where the slice has room for one and `from` is below the size that `size` last answered, else none. A missing
    /// file is a fault, and one that now ends before a place below that size.
    fn read_at(&mut self, path: &str, from: u64, into: &mut [u8]) -> Result<usize, Failed>
        ensures most { IfOk result (λ k. k ≤ length into.old) }
        ensures some { IfOk result (λ k. 0 < length into.old → IsBelow ((state self.old).sized path.now) from → 0 < k) }
        ensures none { IfOk result (λ k. 0 < k → IsBelow ((state self.old).sized path.now) from) }
        ensures bytes { IfOk result (λ k. (state self.old).told ≡ true →
            BytesFrom (file_at (state self.old).contents path.now) from (take k into.new)) }
        ensures kept { SameFiles (state self.old) (state self.new) }
        ensures sizes { SameSizes (state self.old) (state self.new) }
        ensures cause { HasLinkCause (state self.old).faults (state self.new).faults result }
        ensures steady { (state self.old).steady ≡ true →
            IsSteadyLink (state self.old).faults (state self.new).faults result ((state self.old).told ≡ true →
            EndsBefore (file_at (state self.old).contents path.now) ((state self.old).sized path.now) from) }
        ensures still { (state self.old).steady ≡ true → (state self.new).steady ≡ true };

    /// Puts these bytes, at most 65,536, after the file's. After an error that file may hold any bytes. A missing
    /// file is a fault.
    fn append(&mut self, alloc: Global, path: &str, bytes: &[u8]) -> Result<(), FileErr>
        requires { length bytes.now ≤ 65536 }
        ensures ok { OnOk result (Appended (state self.old) (state self.new) path.now bytes.now) }
        ensures only { OnlyAt (state self.old) (state self.new) path.now }
        ensures sizes { SameSizes (state self.old) (state self.new) }
        ensures cause { HasCause (state self.old).faults (state self.new).faults result }
        ensures steady { (state self.old).steady ≡ true →
            IsSteady (state self.old).faults (state self.new).faults result (IsMissing (state self.old) path.now) }
        ensures still { (state self.old).steady ≡ true → (state self.new).steady ≡ true };
}
