// The lines of a view, from the words after their first.
ghost use Rattle.std.specs.Prelude.{◌≡◌, map, IfOk, option_map};
ghost use Rattle.view_text.specs.Text.{Heading, Input, Got, Opened, Ended};
ghost use Rattle.view_text.specs.Reading.{heading_in, input_in, got_in};

use crate::kinds::{link_in, miner_in};
use crate::limited::name_in;
use crate::words::words_in;
use proto_core::Number;
use std::alloc::{AllocError, Global};
use view_text::{InputShare, Received};

/// Whose view it is.
pub fn heading_in(words: &[&[u8]]) -> Option<Number>
    ensures { option_map Heading result ≡ heading_in (map (λ word. word.now) words.now) }
{
    match words {
        [word] => miner_in(word),
        _ => None,
    }
}

/// A share of an input.
pub fn input_in(alloc: Global, words: &[&[u8]]) -> Result<Option<InputShare>, AllocError>
    ensures { IfOk result (λ found. option_map Input found ≡ input_in (map (λ word. word.now) words.now)) }
{
    let Some((name, rest)) = words.split_first() else {
        return Ok(None);
    };
    let Some(name) = name_in(alloc, name)? else {
        return Ok(None);
    };
    match words_in(alloc, rest)? {
        Some(words) => Ok(Some(InputShare::new(name, words))),
        None => Ok(None),
    }
}

/// A message and its link.
pub fn got_in(alloc: Global, words: &[&[u8]]) -> Result<Option<Received>, AllocError>
    ensures { IfOk result (λ found. option_map Got found ≡ got_in (map (λ word. word.now) words.now)) }
{
    let Some((link, rest)) = words.split_first() else {
        return Ok(None);
    };
    let Some(link) = link_in(link) else {
        return Ok(None);
    };
    match words_in(alloc, rest)? {
        Some(message) => Ok(Some(Received::new(link, message))),
        None => Ok(None),
    }
}
