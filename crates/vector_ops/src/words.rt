// Operations on a single list of words.
ghost use Rattle.std.specs.Prelude.{◌≡◌, ◌^◌, ◌%◌, ◌++◌, get_or, map, sum, replicate, OnOk, IfOk};
ghost use Rattle.std.specs.List.{flat_map};
ghost use Rattle.gates.specs.Clear.{bits_of, first_word};
ghost use Rattle.language_model.specs.Lookup.{looked};
ghost use Rattle.language_model.specs.Words.{flipped, cast_word};

use crate::operators::{flip, truth};
use program_trees::{Cast, DataType};
use std::alloc::{AllocError, Global};

/// Each truth value turned round: 1 for 0, and 0 for any other word.
pub fn flipped(alloc: Global, xs: &[u64]) -> Result<Vec<u64>, AllocError>
    ensures { IfOk result (λ words. words.items ≡ map flipped xs.now) }
{
    xs.iter().map(|x| flip(*x)).collect(alloc)
}

/// A word that is cast.
fn cast_to(cast: Cast, x: u64) -> u64
    ensures { result ≡ cast_word cast x }
{
    match (cast.given, cast.wanted) {
        (DataType::Uint64 | DataType::Int64, DataType::Bool) => truth(x != 0),
        (DataType::Bool, _) | (_, DataType::Uint64 | DataType::Int64) => x,
    }
}

/// Each word, cast: a number becomes true where it isn't 0, and every other cast keeps the words.
pub fn cast_words(alloc: Global, cast: Cast, xs: &[u64]) -> Result<Vec<u64>, AllocError>
    ensures { IfOk result (λ words. words.items ≡ map (cast_word cast) xs.now) }
{
    xs.iter().map(|x| cast_to(cast, *x)).collect(alloc)
}

/// Bit 0 of each word.
pub fn low_bits(alloc: Global, xs: &[u64]) -> Result<Vec<u64>, AllocError>
    ensures { IfOk result (λ words. words.items ≡ map (λ x. x % 2) xs.now) }
{
    xs.iter().map(|x| *x % 2).collect(alloc)
}

/// The sum of all words, modulo 2^64.
pub fn wrapping_sum(xs: &[u64]) -> u64
    ensures { result ≡ sum xs.now % 2 ^ 64 }
{
    let mut total: u64 = 0;
    for x in xs {
        total = total.wrapping_add(*x);
    }
    total
}

/// Puts the 64 bits of a word after what is there, bit 0 first.
#[tactic(auto, using(gates::proofs::WordSteps::bit_steps))]
fn push_bits(words: &mut Vec<u64>, x: u64) -> Result<(), AllocError>
    ensures { OnOk result (words.new.items ≡ words.old.items ++ bits_of x) }
{
    for place in 0..64u64 {
        words.push((x >> place) % 2)?;
    }
    Ok(())
}

/// The 64 bits of each word, bit 0 first.
#[tactic(auto, using(gates::proofs::WordSteps::spread_more))]
pub fn bits(alloc: Global, xs: &[u64]) -> Result<Vec<u64>, AllocError>
    ensures { IfOk result (λ words. words.items ≡ flat_map bits_of xs.now) }
{
    let mut words = Vec::new(alloc);
    for x in xs {
        push_bits(&mut words, *x)?;
    }
    Ok(words)
}

/// The first word, and 0 where there is none.
pub fn first_word(xs: &[u64]) -> u64
    ensures { result ≡ first_word xs.now }
{
    if xs.is_empty() { 0 } else { xs[0] }
}

/// The word at an index, and 0 where there is none.
fn word_at(xs: &[u64], index: u64) -> u64
    ensures { result ≡ get_or xs.now index 0 }
{
    if index < xs.len() as u64 {
        xs[index as usize]
    } else {
        0
    }
}

/// The words at these indices, and 0 where there is none.
pub fn looked_up(alloc: Global, xs: &[u64], indices: &[u64]) -> Result<Vec<u64>, AllocError>
    ensures { IfOk result (λ words. words.items ≡ looked xs.now indices.now) }
{
    indices
        .iter()
        .map(|index| word_at(xs, *index))
        .collect(alloc)
}

/// One word several times.
pub fn repeated(alloc: Global, count: usize, word: u64) -> Result<Vec<u64>, AllocError>
    ensures { IfOk result (λ words. words.items ≡ replicate count word) }
{
    vec![in alloc; word; count]
}
