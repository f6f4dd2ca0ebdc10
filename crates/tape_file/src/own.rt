// A file of one party's own tape.
ghost use Rattle.std.specs.Prelude.{◌≡◌, ◌≤◌, length, Ok, IfOk, IfNone};
ghost use Rattle.tape_file.specs.Format.{own_bytes, own_fault_of, read_own_of, IsOwnSound};
ghost use Rattle.tape_file.specs.Reads.{Reads};
ghost use Rattle.tape_file.specs.Tapes.{IsShort};

use crate::read_err::ReadErr;
use crate::words::{MAX_WORDS, push_words, word, words};
use std::alloc::{AllocError, Global};

/// The place of the first fault in the file of a tape that is to have `wanted` words, if there is one.
#[tactic(auto, unfolding(crate::specs::Format::own_fault_of, crate::specs::Format::own_length_fault))]
fn fault(bytes: &[u8], wanted: u64) -> Option<u64>
    ensures fault { result ≡ own_fault_of wanted bytes.now }
    ensures sound { IfNone result (IsOwnSound wanted bytes.now) }
{
    let size = bytes.len() as u64;
    if size < 8 {
        return Some(size);
    }
    let len = word(0, bytes);
    if len > MAX_WORDS || len != wanted {
        return Some(0);
    }
    let wanted_size = 8 + 8 * len;
    if size == wanted_size {
        None
    } else {
        Some(wanted_size.min(size))
    }
}

/// Reads the file of one party's tape of `len` words: the length, then the words, each number in 8
/// bytes, the lowest first.
///
/// `BadTape` is for a file under 8 bytes (its place is the file's length), for a length that is over
/// 16,777,216 or isn't `len` (at 0), and for a file of another size than the length asks for (at the
/// lesser of the two sizes). `Memory` is only for files without fault.
pub fn read_own(alloc: Global, bytes: &[u8], len: u64) -> Result<Vec<u64>, ReadErr>
    ensures reads { Reads (λ tape. tape.items) (read_own_of len bytes.now) result }
    ensures written_again { IfOk result (λ tape. own_bytes tape.items ≡ bytes.now) }
{
    if let Some(place) = fault(bytes, len) {
        return Err(ReadErr::BadTape { place });
    }
    Ok(words(alloc, 8, word(0, bytes) as usize, bytes)?)
}

/// Writes the file of one party's tape, which `read_own` reads as this tape, with its length given, if
/// it has at most 16,777,216 words.
pub fn write_own(alloc: Global, words: &[u64]) -> Result<Vec<u8>, AllocError>
    ensures bytes { IfOk result (λ file. file.items ≡ own_bytes words.now) }
    ensures read_again { IfOk result (λ file. IsShort words.now → read_own_of (length words.now) file.items ≡ Ok words.now) }
{
    let mut file = Vec::new(alloc);
    push_words(&mut file, &[words.len() as u64])?;
    push_words(&mut file, words)?;
    Ok(file)
}
