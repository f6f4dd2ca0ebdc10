// The record after an open gate.
ghost use Rattle.std.specs.Prelude.{◌≡◌, ◌+◌, ◌*◌, ◌<◌, ◌≤◌, length, drop, true, Some, IfOk, IfSome};
ghost use Rattle.outside.specs.Causes.{HasCause};
ghost use Rattle.kept_disk.specs.Disk.{SameDisk, held};
ghost use Rattle.miner_journal.specs.Heads.{FindsBehind};

use crate::heads::read_head;
use crate::reading::read_all;
use kept_disk::Disk;
use outside::FileErr;
use proto_core::{Link, Msg};
use wire::read_words;

/// The record whose bytes begin at the place `from` of a file of `size` bytes, if it is whole and a gate stands after it.
pub(crate) fn read_record<D: Disk>(
    disk: &mut D,
    from: u64,
    size: u64,
) -> Result<Option<(Link, Msg)>, FileErr>
    requires attached { (D.state disk.old).attached ≡ true }
    requires sized { (D.state disk.old).size ≡ Some size }
    requires inside { from ≤ size }
    ensures found { IfOk result (λ found. (D.state disk.old).told ≡ true → length (held (D.state disk.old)).seen ≡ size →
        FindsBehind (drop from (held (D.state disk.old)).seen) found) }
    ensures fits { IfOk result (λ found. IfSome found (λ k. from + 5 + 8 * length k.1 < size)) }
    ensures same { SameDisk (D.state disk.old) (D.state disk.new) }
    ensures cause { HasCause (D.state disk.old).faults (D.state disk.new).faults result }
{
    if size - from < 5 {
        return Ok(None);
    }
    let mut head = [0; 5];
    read_all(disk, from, &mut head)?;
    match read_head(&head) {
        Some((link, count)) => {
            if size - from <= 5 + 8 * u64::from(count) {
                return Ok(None);
            }
            let mut body = [0; 16384];
            let words = &mut body[..8 * count as usize];
            read_all(disk, from + 5, words)?;
            Ok(Some((link, read_words(count, words))))
        }
        None => Ok(None),
    }
}
