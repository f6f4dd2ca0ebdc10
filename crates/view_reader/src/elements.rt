// Elements of printed values.
ghost use Rattle.std.specs.Prelude.{◌≡◌, ◌<◌, ◌==◌, ◌++◌, length, map, slice_index, IsTrue, IfOk, OnOk, option_map};
ghost use Rattle.sc_text.specs.Elements.{element_word};
ghost use Rattle.view_text.specs.Reading.{below_in, signed_in, element_in, all_in};

use crate::words::{is_word, word_in};
use sc_text::Element;
use std::alloc::{AllocError, Global};

/// By how much a number may be below 0.
const FURTHEST_BELOW: u64 = 9_223_372_036_854_775_808;

fn has_sign(word: &[u8]) -> bool
    ensures sign { result ≡ (slice_index word.now 0 == 45) }
    ensures longer { IsTrue result → 0 < length word.now }
{
    !word.is_empty() && word[0] == b'-'
}

/// The number from 1 to 2^63 of which this is the decimal text, without leading zeros.
fn below_in(alloc: Global, digits: &[u8]) -> Result<Option<u64>, AllocError>
    ensures { IfOk result (λ found. found ≡ below_in digits.now) }
{
    let Some(number) = word_in(alloc, digits)? else {
        return Ok(None);
    };
    if number == 0 {
        return Ok(None);
    }
    if number <= FURTHEST_BELOW {
        Ok(Some(number))
    } else {
        Ok(None)
    }
}

fn signed_in(alloc: Global, word: &[u8]) -> Result<Option<Element>, AllocError>
    ensures { IfOk result (λ found. found ≡ signed_in word.now) }
{
    if has_sign(word) {
        match below_in(alloc, &word[1..])? {
            Some(below) => Ok(Some(Element::Negative(below))),
            None => Ok(None),
        }
    } else {
        match word_in(alloc, word)? {
            Some(number) => Ok(Some(Element::Word(number))),
            None => Ok(None),
        }
    }
}

/// The element of which this is the text: a number below 2^64 in decimal, `-` and one from 1 to 2^63, `true` or `false`.
pub fn element_in(alloc: Global, word: &[u8]) -> Result<Option<Element>, AllocError>
    ensures { IfOk result (λ found. found ≡ element_in word.now) }
{
    if is_word(word, "true") {
        return Ok(Some(Element::Truth(true)));
    }
    if is_word(word, "false") {
        return Ok(Some(Element::Truth(false)));
    }
    signed_in(alloc, word)
}

/// The elements of which these are the texts, where each is one.
pub fn elements_in(alloc: Global, parts: &[&[u8]]) -> Result<Option<Vec<Element>>, AllocError>
    ensures { IfOk result (λ found.
        option_map (λ elements. elements.items) found ≡ all_in element_in (map (λ part. part.now) parts.now)) }
{
    let mut elements = Vec::new(alloc);
    for part in parts {
        match element_in(alloc, part)? {
            Some(element) => elements.push(element)?,
            None => return Ok(None),
        }
    }
    Ok(Some(elements))
}

/// Puts the words of elements after those that are there.
pub fn push_words(words: &mut Vec<u64>, elements: &[Element]) -> Result<(), AllocError>
    ensures { OnOk result (words.new.items ≡ words.old.items ++ map element_word elements.now) }
{
    for element in elements {
        words.push(element.word())?;
    }
    Ok(())
}
