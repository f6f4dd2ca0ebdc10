// A file of all four tapes.
ghost use Rattle.std.specs.Prelude.{◌≡◌, length, Ok, IfOk, IfNone};
ghost use Rattle.tape_file.specs.Format.{fault_of, lengths_fault, read_of, tape_bytes, tapes_at, IsSized, IsSound};
ghost use Rattle.tape_file.specs.Reads.{Reads};
ghost use Rattle.tape_file.specs.Tapes.{AreShort};

use crate::read_err::ReadErr;
use crate::tapes::Tapes;
use crate::words::{MAX_WORDS, push_words, word, words};
use std::alloc::{AllocError, Global};

/// The place of the first fault in the four lengths and in the file's size, if there is one.
#[tactic(auto, unfolding(crate::specs::Format::lengths_fault))]
fn lengths_fault(dealer: u64, miner1: u64, miner2: u64, miner3: u64, size: u64) -> Option<u64>
    ensures fault { result ≡ lengths_fault dealer miner1 miner2 miner3 size }
    ensures sized { IfNone result (IsSized dealer miner1 miner2 miner3 size) }
{
    if dealer > MAX_WORDS {
        return Some(0);
    }
    if miner1 > MAX_WORDS {
        return Some(8);
    }
    if miner2 > MAX_WORDS {
        return Some(16);
    }
    if miner3 > MAX_WORDS {
        return Some(24);
    }
    let wanted = 32 + 8 * (dealer + miner1 + miner2 + miner3);
    if size == wanted {
        None
    } else {
        Some(wanted.min(size))
    }
}

/// The place of the first fault in a file, if there is one.
#[tactic(auto, unfolding(crate::specs::Format::fault_of))]
fn fault(bytes: &[u8]) -> Option<u64>
    ensures fault { result ≡ fault_of bytes.now }
    ensures sound { IfNone result (IsSound bytes.now) }
{
    let size = bytes.len() as u64;
    if size < 32 {
        return Some(size);
    }
    lengths_fault(
        word(0, bytes),
        word(8, bytes),
        word(16, bytes),
        word(24, bytes),
        size,
    )
}

/// The tapes of these lengths, which stand after the lengths in a file.
#[tactic(auto, unfolding(crate::specs::Format::tapes_at))]
fn tapes(
    alloc: Global,
    dealer: usize,
    miner1: usize,
    miner2: usize,
    miner3: usize,
    bytes: &[u8],
) -> Result<Tapes, AllocError>
    requires { IsSized dealer miner1 miner2 miner3 (length bytes.now) }
    ensures { IfOk result (λ tapes. tapes ≡ tapes_at dealer miner1 miner2 miner3 bytes.now) }
{
    Ok(Tapes::new(
        words(alloc, 32, dealer, bytes)?,
        words(alloc, 32 + 8 * dealer, miner1, bytes)?,
        words(alloc, 32 + 8 * (dealer + miner1), miner2, bytes)?,
        words(alloc, 32 + 8 * (dealer + miner1 + miner2), miner3, bytes)?,
    ))
}

/// Reads a tape file: the lengths of the tapes of the dealer and of miners 1, 2 and 3, then their words,
/// each number in 8 bytes, the lowest first.
///
/// `BadTape` is for a file under 32 bytes (its place is the file's length), for a length over 16,777,216
/// (at 0, 8, 16 or 24, the first such), and for a file of another size than its lengths ask for (at the
/// lesser of the two sizes). `Memory` is only for files without fault.
pub fn read(alloc: Global, bytes: &[u8]) -> Result<Tapes, ReadErr>
    ensures reads { Reads (λ tapes. tapes) (read_of bytes.now) result }
    ensures written_again { IfOk result (λ tapes. tape_bytes tapes ≡ bytes.now) }
{
    if let Some(place) = fault(bytes) {
        return Err(ReadErr::BadTape { place });
    }
    let dealer = word(0, bytes) as usize;
    let miner1 = word(8, bytes) as usize;
    let miner2 = word(16, bytes) as usize;
    let miner3 = word(24, bytes) as usize;
    Ok(tapes(alloc, dealer, miner1, miner2, miner3, bytes)?)
}

/// Writes a tape file, which `read` reads as these tapes if each has at most 16,777,216 words.
pub fn write(alloc: Global, tapes: &Tapes) -> Result<Vec<u8>, AllocError>
    ensures bytes { IfOk result (λ file. file.items ≡ tape_bytes tapes.now) }
    ensures read_again { IfOk result (λ file. AreShort tapes.now → read_of file.items ≡ Ok tapes.now) }
{
    let dealer = tapes.dealer();
    let miner1 = tapes.miner1();
    let miner2 = tapes.miner2();
    let miner3 = tapes.miner3();
    let mut file = Vec::new(alloc);
    push_words(&mut file, &tapes.lengths())?;
    push_words(&mut file, dealer)?;
    push_words(&mut file, miner1)?;
    push_words(&mut file, miner2)?;
    push_words(&mut file, miner3)?;
    Ok(file)
}
