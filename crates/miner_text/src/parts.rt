// The lines of a miner's text, from their words.
ghost use Rattle.std.specs.Prelude.{◌≡◌, map, IfOk, option_map};
ghost use Rattle.program_trees.specs.declared.expression.DataType.TheVariants as datatype;
ghost use Rattle.sc_text.specs.declared.event.Event.TheVariants.{Open};
ghost use Rattle.view_text.specs.Reading.{all_in, element_in};
ghost use Rattle.miner_text.specs.declared.line.MinerLine.TheVariants.{Ended};
ghost use Rattle.miner_text.specs.Reading.{published_in, share_of, share_in, line_in};

use crate::line::MinerLine;
use crate::result_share::ResultShare;
use crate::types::type_in;
use bit_words::words_for;
use program_trees::DataType;
use sc_text::{Elements, Event, Name};
use std::alloc::{AllocError, Global};
use view_reader::{elements_in, end_in, is_word, name_in, words_in};

/// The opening with these elements.
fn opened_in(alloc: Global, words: &[&[u8]]) -> Result<Option<Event>, AllocError>
    ensures { IfOk result (λ found. found ≡ option_map Open (all_in element_in (map (λ word. word.now) words.now))) }
{
    match elements_in(alloc, words)? {
        Some(elements) => Ok(Some(Event::Open(Elements::from_vec(elements)))),
        None => Ok(None),
    }
}

/// The public value with this name and these elements.
fn published_in(alloc: Global, words: &[&[u8]]) -> Result<Option<Event>, AllocError>
    ensures { IfOk result (λ found. found ≡ published_in (map (λ word. word.now) words.now)) }
{
    let Some((name, rest)) = words.split_first() else {
        return Ok(None);
    };
    let Some(name) = name_in(alloc, name)? else {
        return Ok(None);
    };
    match elements_in(alloc, rest)? {
        Some(elements) => Ok(Some(Event::Publish(name, Elements::from_vec(elements)))),
        None => Ok(None),
    }
}

/// The share of truth values with these numbers: how many there are, and then the words that hold them.
fn truths_of(name: Name, mut numbers: Vec<u64>) -> Option<ResultShare>
    ensures { result ≡ share_of name datatype.Bool numbers.items }
{
    if numbers.is_empty() {
        return None;
    }
    let count = numbers.remove(0);
    if numbers.len() as u64 == words_for(count) {
        Some(ResultShare::new(name, DataType::Bool, count, numbers))
    } else {
        None
    }
}

/// The share that has these numbers in its line.
fn share_of(name: Name, element: DataType, numbers: Vec<u64>) -> Option<ResultShare>
    ensures { result ≡ share_of name element numbers.items }
{
    match element {
        DataType::Uint64 | DataType::Int64 => {
            let count = numbers.len() as u64;
            Some(ResultShare::new(name, element, count, numbers))
        }
        DataType::Bool => truths_of(name, numbers),
    }
}

/// The share with this name, this type and these numbers.
fn share_in(alloc: Global, words: &[&[u8]]) -> Result<Option<ResultShare>, AllocError>
    ensures { IfOk result (λ found. found ≡ share_in (map (λ word. word.now) words.now)) }
{
    let [name, element, rest @ ..] = words else {
        return Ok(None);
    };
    let Some(element) = type_in(element) else {
        return Ok(None);
    };
    let Some(name) = name_in(alloc, name)? else {
        return Ok(None);
    };
    match words_in(alloc, rest)? {
        Some(numbers) => Ok(share_of(name, element, numbers)),
        None => Ok(None),
    }
}

/// The line of these words.
pub fn line_in(alloc: Global, words: &[&[u8]]) -> Result<Option<MinerLine>, AllocError>
    ensures { IfOk result (λ found. found ≡ line_in (map (λ word. word.now) words.now)) }
{
    let Some((word, rest)) = words.split_first() else {
        return Ok(None);
    };
    if is_word(word, "open") {
        Ok(opened_in(alloc, rest)?.map(MinerLine::Told))
    } else if is_word(word, "publish") {
        Ok(published_in(alloc, rest)?.map(MinerLine::Told))
    } else if is_word(word, "share") {
        Ok(share_in(alloc, rest)?.map(MinerLine::Share))
    } else if is_word(word, "end") {
        Ok(end_in(alloc, rest)?.map(MinerLine::Ended))
    } else {
        Ok(None)
    }
}
