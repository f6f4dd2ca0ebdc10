// Words of 8 bytes each, the lowest byte first.
ghost use Rattle.std.specs.Prelude.{◌≡◌, ◌+◌, ◌*◌, ◌≤◌, ◌++◌, length, All, IfOk, OnOk};
ghost use Rattle.tape_file.specs.Format.{bytes_of, word_at, word_bytes, words_at};
ghost use Rattle.tape_file.specs.Tapes.{IsWord};

use byteorder::{ByteOrder, LittleEndian};
use std::alloc::{AllocError, Global};

/// The most words that a tape in a file has.
pub(crate) const MAX_WORDS: u64 = 16_777_216;

/// The 8 bytes of a word.
#[tactic(auto, unfolding(crate::specs::Format::word_bytes))]
pub(crate) fn word_bytes(word: u64) -> [u8; 8]
    ensures { result ≡ word_bytes word }
{
    let mut bytes = [0; 8];
    LittleEndian::write_u64(&mut bytes, word);
    bytes
}

/// The word in the 8 bytes from `place` on.
#[tactic(auto, unfolding(crate::specs::Format::word_at))]
pub(crate) fn word(place: usize, bytes: &[u8]) -> u64
    requires { place + 8 ≤ length bytes.now }
    ensures { result ≡ word_at place bytes.now }
{
    LittleEndian::read_u64(&bytes[place..])
}

/// The `count` words from `place` on.
pub(crate) fn words(
    alloc: Global,
    place: usize,
    count: usize,
    bytes: &[u8],
) -> Result<Vec<u64>, AllocError>
    requires { place + 8 * count ≤ length bytes.now }
    ensures { IfOk result (λ words. words.items ≡ words_at place count bytes.now) }
{
    let mut words = Vec::with_capacity(alloc, count)?;
    for k in 0..count {
        words.push(word(place + 8 * k, bytes))?;
    }
    Ok(words)
}

/// Writes words after what a file has.
pub(crate) fn push_words(file: &mut Vec<u8>, words: &[u64]) -> Result<(), AllocError>
    ensures bytes { OnOk result (file.new.items ≡ file.old.items ++ bytes_of words.now) }
    ensures words { OnOk result (All IsWord words.now) }
{
    file.reserve(words.len().saturating_mul(8))?;
    for word in words {
        file.extend_from_slice(&word_bytes(*word))?;
    }
    Ok(())
}
