// Calls on streams that are tried again where a signal interrupted them.
ghost use Rattle.std.specs.Prelude.{◌<◌, ◌≤◌, length, IfSome};

use std::io;
use std::io::{Read, Write};
use std::os::unix::fs::FileExt;

// Whether a call failed only because it was interrupted.
fn is_interrupted(error: &io::Error) -> bool {
    error.kind() == io::ErrorKind::Interrupted
}

/// Writes some of the bytes, from the front, at least one where there is one.
pub(crate) fn write_some<W: Write>(stream: &mut W, piece: &[u8]) -> Option<usize>
    ensures most { IfSome result (λ k. k ≤ length piece.now) }
    ensures some { IfSome result (λ k. 0 < length piece.now → 0 < k) }
{
    for _ in 0..u64::MAX {
        match stream.write(piece) {
            Ok(count) => return (count > 0 || piece.is_empty()).then_some(count),
            Err(error) if is_interrupted(&error) => {}
            Err(_) => return None,
        }
    }
    None
}

/// Reads some bytes to the front of the slice, at least one where it has room for one.
pub(crate) fn read_some<R: Read>(stream: &mut R, into: &mut [u8]) -> Option<usize>
    ensures most { IfSome result (λ k. k ≤ length into.old) }
    ensures some { IfSome result (λ k. 0 < length into.old → 0 < k) }
{
    for _ in 0..u64::MAX {
        match stream.read(into) {
            Ok(count) => return (count > 0 || into.is_empty()).then_some(count),
            Err(error) if is_interrupted(&error) => {}
            Err(_) => return None,
        }
    }
    None
}

/// Reads some bytes of a file from a place on to the front of the slice, at least one where it has room for one.
pub(crate) fn read_some_at<F: FileExt>(file: &F, from: u64, into: &mut [u8]) -> Option<usize>
    ensures most { IfSome result (λ k. k ≤ length into.old) }
    ensures some { IfSome result (λ k. 0 < length into.old → 0 < k) }
{
    for _ in 0..u64::MAX {
        match file.read_at(into, from) {
            Ok(count) => return (count > 0 || into.is_empty()).then_some(count),
            Err(error) if is_interrupted(&error) => {}
            Err(_) => return None,
        }
    }
    None
}
