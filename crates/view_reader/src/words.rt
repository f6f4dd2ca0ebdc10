// Words, and the numbers that they spell.
ghost use Rattle.std.specs.Prelude.{◌≡◌, map, IfOk, option_map, bytes_eq};
ghost use Rattle.view_text.specs.Reading.{word_in, all_in};

use std::alloc::{AllocError, Global};

/// Whether a word is this text.
pub fn is_word(word: &[u8], text: &str) -> bool
    ensures { result ≡ bytes_eq text.now word.now }
{
    text.as_bytes() == word
}

/// The number below 2^64 of which this is the decimal text, without leading zeros.
pub fn word_in(alloc: Global, word: &[u8]) -> Result<Option<u64>, AllocError>
    ensures { IfOk result (λ found. found ≡ word_in word.now) }
{
    match str::from_utf8(word) {
        Ok(text) => view_text::word_in(alloc, text),
        Err(_) => Ok(None),
    }
}

/// The numbers of which these are the decimal texts, where each is one.
pub fn words_in(alloc: Global, parts: &[&[u8]]) -> Result<Option<Vec<u64>>, AllocError>
    ensures { IfOk result (λ found.
        option_map (λ words. words.items) found ≡ all_in word_in (map (λ part. part.now) parts.now)) }
{
    let mut words = Vec::new(alloc);
    for part in parts {
        match word_in(alloc, part)? {
            Some(word) => words.push(word)?,
            None => return Ok(None),
        }
    }
    Ok(Some(words))
}
