// How a run ended, from the words of its line.
ghost use Rattle.std.specs.Prelude.{◌≡◌, map, if◌then◌else◌, IfOk, Some, None, codes, bytes_eq};
ghost use Rattle.view_text.specs.Reading.{cost_in, trap_end_in, tape_end_in, end_in};
ghost use Rattle.view_reader.specs.Ends.{plain_end_in};

use crate::kinds::{owner_in, trap_in};
use crate::limited::{line_number_in, need_in};
use crate::words::{is_word, word_in};
use sc_text::{End, Ending};
use std::alloc::{AllocError, Global};

/// A word and the text of a number after it, as in `cost 7`.
#[derive(Clone, Copy)]
struct Field<'a> {
    name: &'a [u8],
    number: &'a [u8],
}

fn cost_in(alloc: Global, how: Ending, cost: &Field<'_>) -> Result<Option<End>, AllocError>
    ensures { IfOk result (λ found. found ≡ cost_in how cost.now.name.now cost.now.number.now) }
{
    if !is_word(cost.name, "cost") {
        return Ok(None);
    }
    match word_in(alloc, cost.number)? {
        Some(cost) => Ok(Some(End { how, cost })),
        None => Ok(None),
    }
}

fn trap_end_in(
    alloc: Global,
    kind: &[u8],
    line: &Field<'_>,
    cost: &Field<'_>,
) -> Result<Option<End>, AllocError>
    ensures { IfOk result (λ found.
        found ≡ trap_end_in kind.now line.now.name.now line.now.number.now cost.now.name.now cost.now.number.now) }
{
    let Some(kind) = trap_in(kind) else {
        return Ok(None);
    };
    if !is_word(line.name, "line") {
        return Ok(None);
    }
    match line_number_in(alloc, line.number)? {
        Some(line) => cost_in(alloc, Ending::Trap { kind, line }, cost),
        None => Ok(None),
    }
}

fn tape_end_in(
    alloc: Global,
    owner: &[u8],
    need: &Field<'_>,
    have: &Field<'_>,
    cost: &Field<'_>,
) -> Result<Option<End>, AllocError>
    ensures { IfOk result (λ found.
        found ≡ tape_end_in owner.now need.now.name.now need.now.number.now have.now.name.now have.now.number.now
        cost.now.name.now cost.now.number.now) }
{
    let Some(owner) = owner_in(owner) else {
        return Ok(None);
    };
    if !is_word(need.name, "need") {
        return Ok(None);
    }
    let Some(need) = need_in(alloc, need.number)? else {
        return Ok(None);
    };
    if !is_word(have.name, "have") {
        return Ok(None);
    }
    match word_in(alloc, have.number)? {
        Some(have) => cost_in(alloc, Ending::Tape { owner, need, have }, cost),
        None => Ok(None),
    }
}

/// The ends that have no number of their own.
fn plain_end_in(alloc: Global, word: &[u8], cost: &Field<'_>) -> Result<Option<End>, AllocError>
    ensures { IfOk result (λ found. found ≡ plain_end_in word.now cost.now.name.now cost.now.number.now) }
{
    if is_word(word, "done") {
        cost_in(alloc, Ending::Done, cost)
    } else if is_word(word, "budget") {
        cost_in(alloc, Ending::Budget, cost)
    } else {
        Ok(None)
    }
}

/// The end that these words tell.
pub fn end_in(alloc: Global, words: &[&[u8]]) -> Result<Option<End>, AllocError>
    ensures { IfOk result (λ found. found ≡ end_in (map (λ word. word.now) words.now)) }
{
    match words {
        [word, name, number] => plain_end_in(alloc, word, &Field { name, number }),
        [word, kind, line_name, line, name, number] if is_word(word, "trap") => {
            let line = Field {
                name: line_name,
                number: line,
            };
            trap_end_in(alloc, kind, &line, &Field { name, number })
        }
        [word, owner, need_name, need, have_name, have, name, number] if is_word(word, "tape") => {
            let need = Field {
                name: need_name,
                number: need,
            };
            let have = Field {
                name: have_name,
                number: have,
            };
            tape_end_in(alloc, owner, &need, &have, &Field { name, number })
        }
        _ => Ok(None),
    }
}
