// The file of opened values.
ghost use Rattle.std.specs.Prelude.{◌≡◌, ◌++◌, Some, None, map, if◌then◌else◌, IfOk, option_map};
ghost use Rattle.sc_text.specs.Elements.{element_word};
ghost use Rattle.view_text.specs.Reading.{words_in_line};
ghost use Rattle.view_reader.specs.Opened.{opened_of, opening_in};
ghost use Rattle.view_reader.specs.Reads.{Reads};

use crate::elements::{elements_in, push_words};
use crate::lines::{lines_in, words_in_line};
use crate::read_err::ReadErr;
use crate::words::is_word;
use std::alloc::{AllocError, Global};

/// Puts the words of an opening after those that are there, or answers that the line is none.
fn push_opening(alloc: Global, line: &[u8], opened: &mut Vec<u64>) -> Result<bool, AllocError>
    ensures { IfOk result (λ is_one. (if is_one then Some opened.new.items else None)
        ≡ option_map (λ opening. opened.old.items ++ map element_word opening) (opening_in (words_in_line line.now))) }
{
    let words = words_in_line(alloc, line)?;
    let Some((word, parts)) = words.split_first() else {
        return Ok(false);
    };
    if !is_word(word, "open") {
        return Ok(false);
    }
    let Some(elements) = elements_in(alloc, parts)? else {
        return Ok(false);
    };
    push_words(opened, &elements)?;
    Ok(true)
}

/// Reads a file of opened values: lines of `open` and then the elements, each a number below 2^64 in decimal without
/// leading zeros, `-` and such a number from 1 to 2^63, `true` or `false`, with one space before it and a newline after each
/// line. The answer has the words in order, for a number below 0 by two's complement, for a truth value 1 or 0.
///
/// `BadView` names the first line that is no such line or has no newline, counted from 1.
pub fn read_opened(alloc: Global, bytes: &[u8]) -> Result<Vec<u64>, ReadErr>
    ensures { Reads (λ words. words.items) (opened_of bytes.now) result }
{
    let parts = lines_in(alloc, bytes)?;
    let Some((rest, lines)) = parts.split_last() else {
        return Err(ReadErr::BadView { line: 1 });
    };
    let mut opened = Vec::new(alloc);
    for (index, line) in lines.iter().enumerate() {
        if !push_opening(alloc, line, &mut opened)? {
            let line = index as u64 + 1;
            return Err(ReadErr::BadView { line });
        }
    }
    if !rest.is_empty() {
        let line = lines.len() as u64 + 1;
        return Err(ReadErr::BadView { line });
    }
    Ok(opened)
}
