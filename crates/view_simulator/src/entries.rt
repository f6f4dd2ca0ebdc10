ghost use Rattle.std.specs.Prelude.{◌≡◌, take, drop, IfOk};
ghost use Rattle.view_model.specs.Dealing.{hidden_draws, made_share, made_part, made_entries};

use input_share::{Part, ShareEntry, Shared, shared_size};
use proto_core::Number;
use std::alloc::{AllocError, Global};
use value_file::{PublicEntry, PublicPart, PublicValue, Words};

/// So many words from the front, or all where there are fewer, and those after them.
#[tactic(auto, using(crate::proofs::InputPieces::cut_steps))]
fn cut(words: &[u64], count: u64) -> (&[u64], &[u64])
    ensures front { result.0.now ≡ take count words.now }
    ensures behind { result.1.now ≡ drop count words.now }
{
    if count <= words.len() as u64 {
        words.split_at(count as usize)
    } else {
        (words, &[])
    }
}

/// The words after those of an input, of which a hidden one takes two for each word in which it is shared.
fn behind<'a>(value: &PublicValue, words: &'a [u64]) -> &'a [u64]
    ensures { result.now ≡ drop (hidden_draws value.now) words.now }
{
    match value {
        PublicValue::Known(_) => words,
        PublicValue::Hidden { data_type, shape } => {
            let count = shared_size(*data_type, shape.count());
            cut(cut(words, count).1, count).1
        }
    }
}

/// A miner's share of so many words.
fn share(alloc: Global, miner: Number, count: u64, words: &[u64]) -> Result<Vec<u64>, AllocError>
    ensures { IfOk result (λ share. share.items ≡ made_share miner count words.now) }
{
    let (first, rest) = cut(words, count);
    match miner {
        Number::One | Number::Three => first.to_vec(alloc),
        Number::Two => cut(rest, count).0.to_vec(alloc),
    }
}

/// What a miner has of an input.
fn part(
    alloc: Global,
    miner: Number,
    value: &PublicValue,
    words: &[u64],
) -> Result<Part, AllocError>
    ensures { IfOk result (λ part. part ≡ made_part miner value.now words.now) }
{
    match value {
        PublicValue::Known(value) => Ok(Part::Public(value.copy(alloc)?)),
        PublicValue::Hidden { data_type, shape } => {
            let count = shared_size(*data_type, shape.count());
            let words = share(alloc, miner, count, words)?;
            Ok(Part::Private(Shared {
                data_type: *data_type,
                shape: *shape,
                words: Words::new(words),
            }))
        }
    }
}

/// What a miner has of an input, with its name.
fn made_entry(
    alloc: Global,
    miner: Number,
    entry: &PublicEntry,
    words: &[u64],
) -> Result<ShareEntry, AllocError>
    ensures { IfOk result (λ mine. mine ≡ record { name = entry.now.name; part = made_part miner entry.now.value words.now }) }
{
    Ok(ShareEntry {
        name: entry.name.copy(alloc)?,
        part: part(alloc, miner, &entry.value, words)?,
    })
}

/// The input shares that the simulator makes for a miner, of the dealer's words that a view is made of. A public input stands there
/// as it is; of a hidden one that is shared in m words miners 1 and 3 have the next m words, and miner 2 the m words after these. Where
/// words are wanting a share has those that there are.
pub fn made_entries(
    alloc: Global,
    miner: Number,
    part: &PublicPart,
    words: &[u64],
) -> Result<Vec<ShareEntry>, AllocError>
    ensures { IfOk result (λ made. made.items ≡ made_entries miner part.now words.now) }
{
    let mut made = Vec::new(alloc);
    let mut rest = words;
    for entry in part.entries() {
        made.push(made_entry(alloc, miner, entry, rest)?)?;
        rest = behind(&entry.value, rest);
    }
    Ok(made)
}
