// Numbers with other limits than words have.
ghost use Rattle.std.specs.Prelude.{◌≡◌, ◌^◌, IfOk};
ghost use Rattle.view_text.specs.Reading.{number_in, name_in};

use crate::words::word_in;
use sc_text::Name;
use std::alloc::{AllocError, Global};

/// The number below 2^32 of which this is the decimal text, without leading zeros.
pub fn line_number_in(alloc: Global, word: &[u8]) -> Result<Option<u32>, AllocError>
    ensures { IfOk result (λ found. found ≡ number_in (2 ^ 32) word.now) }
{
    let Some(number) = word_in(alloc, word)? else {
        return Ok(None);
    };
    if number <= 4_294_967_295 {
        Ok(Some(number as u32))
    } else {
        Ok(None)
    }
}

// `parse` alone takes a sign and leading zeros too.
fn need_of_text(alloc: Global, text: &str) -> Result<Option<u128>, AllocError>
    ensures { IfOk result (λ found. found ≡ number_in (2 ^ 128) text.now) }
{
    match text.parse::<u128>() {
        Ok(number) => {
            let again = format!(in alloc; "{number}")?;
            if again.as_str() == text {
                Ok(Some(number))
            } else {
                Ok(None)
            }
        }
        Err(_) => Ok(None),
    }
}

/// The number below 2^128 of which this is the decimal text, without leading zeros.
pub fn need_in(alloc: Global, word: &[u8]) -> Result<Option<u128>, AllocError>
    ensures { IfOk result (λ found. found ≡ number_in (2 ^ 128) word.now) }
{
    match str::from_utf8(word) {
        Ok(text) => need_of_text(alloc, text),
        Err(_) => Ok(None),
    }
}

/// The word as a name, where it is one.
pub fn name_in(alloc: Global, word: &[u8]) -> Result<Option<Name>, AllocError>
    ensures { IfOk result (λ found. found ≡ name_in word.now) }
{
    match str::from_utf8(word) {
        Ok(text) => Name::from_str(alloc, text),
        Err(_) => Ok(None),
    }
}
