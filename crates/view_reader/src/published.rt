// The file of what is handed over.
ghost use Rattle.std.specs.Prelude.{◌≡◌, ◌++◌, Some, None, map, if◌then◌else◌, IfOk, option_map};
ghost use Rattle.view_text.specs.Reading.{words_in_line};
ghost use Rattle.view_reader.specs.Published.{named_in, publication_in, words_published, published_in};
ghost use Rattle.view_reader.specs.Reads.{Reads};

use crate::elements::{elements_in, push_words};
use crate::limited::name_in;
use crate::lines::{lines_in, words_in_line};
use crate::read_err::ReadErr;
use crate::words::is_word;
use sc_text::Element;
use std::alloc::{AllocError, Global};

/// The elements that are published under the name before them.
fn named_in(alloc: Global, words: &[&[u8]]) -> Result<Option<Vec<Element>>, AllocError>
    ensures { IfOk result (λ found.
        option_map (λ elements. elements.items) found ≡ option_map (λ p. p.elements) (named_in (map (λ word. word.now) words.now))) }
{
    let Some((word, parts)) = words.split_first() else {
        return Ok(None);
    };
    match name_in(alloc, word)? {
        Some(_) => elements_in(alloc, parts),
        None => Ok(None),
    }
}

/// The elements of the publication whose line has these words.
fn publication_in(alloc: Global, words: &[&[u8]]) -> Result<Option<Vec<Element>>, AllocError>
    ensures { IfOk result (λ found.
        option_map (λ elements. elements.items) found ≡ option_map (λ p. p.elements) (publication_in (map (λ word. word.now) words.now))) }
{
    match words.split_first() {
        Some((word, rest)) if is_word(word, "publish") => named_in(alloc, rest),
        _ => Ok(None),
    }
}

/// Puts the words of a publication after those that are there, or answers that the line is none.
fn push_publication(
    alloc: Global,
    line: &[u8],
    published: &mut Vec<u64>,
) -> Result<bool, AllocError>
    ensures { IfOk result (λ is_one. (if is_one then Some published.new.items else None)
        ≡ option_map (λ p. published.old.items ++ words_published p) (publication_in (words_in_line line.now))) }
{
    let words = words_in_line(alloc, line)?;
    let Some(elements) = publication_in(alloc, &words)? else {
        return Ok(false);
    };
    push_words(published, &elements)?;
    Ok(true)
}

/// Reads a file of what is handed over: lines of `publish`, a name and then the elements, each a number below 2^64 in decimal without
/// leading zeros, `-` and such a number from 1 to 2^63, `true` or `false`, with one space before each word and a newline after each
/// line. The answer has the words in order, for a number below 0 by two's complement, for a truth value 1 or 0.
///
/// `BadView` names the first line that is no such line or has no newline, counted from 1.
pub fn read_published(alloc: Global, bytes: &[u8]) -> Result<Vec<u64>, ReadErr>
    ensures { Reads (λ words. words.items) (published_in bytes.now) result }
{
    let parts = lines_in(alloc, bytes)?;
    let Some((rest, lines)) = parts.split_last() else {
        return Err(ReadErr::BadView { line: 1 });
    };
    let mut published = Vec::new(alloc);
    for (index, line) in lines.iter().enumerate() {
        if !push_publication(alloc, line, &mut published)? {
            let line = index as u64 + 1;
            return Err(ReadErr::BadView { line });
        }
    }
    if !rest.is_empty() {
        let line = lines.len() as u64 + 1;
        return Err(ReadErr::BadView { line });
    }
    Ok(published)
}
