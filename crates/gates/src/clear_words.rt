// The operations of gates on clear words.
ghost use Rattle.std.specs.Prelude.{◌≡◌, ◌+◌, ◌*◌, ◌/◌, ◌^◌, ◌%◌, ◌<◌, ◌≤◌, [], ◌∷◌, ◌++◌, length, map, take, drop, set, sum, replicate, OnOk, IfOk};
ghost use Rattle.std.specs.List.{flat_map, range_with_len};
ghost use Rattle.std.specs.Int.{w64, bit_not};
ghost use Rattle.gates.specs.Clear.{each_two, first_word};

use crate::words::Words;
use lane_kernel::LaneRing;
use std::alloc::{AllocError, Global};

/// The sums of the two words at each index, in a ring.
pub(crate) fn sums<R: LaneRing>(alloc: Global, xs: &[u64], ys: &[u64]) -> Result<Words, AllocError>
    ensures { IfOk result (λ words. words ≡ each_two R.ring.add xs.now ys.now) }
{
    let count = xs.len().min(ys.len());
    let mut words = Vec::from_slice(alloc, &xs[..count])?;
    R::add_into(&mut words, &ys[..count]);
    Ok(Words::new(words))
}

/// The differences of the two words at each index, in a ring.
pub(crate) fn differences<R: LaneRing>(
    alloc: Global,
    xs: &[u64],
    ys: &[u64],
) -> Result<Words, AllocError>
    ensures { IfOk result (λ words. words ≡ each_two R.ring.sub xs.now ys.now) }
{
    let count = xs.len().min(ys.len());
    let mut words = Vec::from_slice(alloc, &xs[..count])?;
    R::sub_into(&mut words, &ys[..count]);
    Ok(Words::new(words))
}

/// The products of the two words at each index, in a ring.
pub(crate) fn products<R: LaneRing>(
    alloc: Global,
    xs: &[u64],
    ys: &[u64],
) -> Result<Words, AllocError>
    ensures { IfOk result (λ words. words ≡ each_two R.ring.mul xs.now ys.now) }
{
    let count = xs.len().min(ys.len());
    let mut words = Vec::from_slice(alloc, &xs[..count])?;
    R::mul_into(&mut words, &ys[..count]);
    Ok(Words::new(words))
}

/// Each word with all its bits turned round.
pub(crate) fn complements(alloc: Global, xs: &[u64]) -> Result<Words, AllocError>
    ensures { IfOk result (λ words. words ≡ map (bit_not w64) xs.now) }
{
    let words = xs.iter().map(|x| !*x).collect(alloc)?;
    Ok(Words::new(words))
}

/// Bit 0 of each word.
pub(crate) fn low_bits(alloc: Global, xs: &[u64]) -> Result<Words, AllocError>
    ensures { IfOk result (λ words. words ≡ map (λ x. x % 2) xs.now) }
{
    let words = xs.iter().map(|x| *x % 2).collect(alloc)?;
    Ok(Words::new(words))
}

/// A word shifted up; what passes bit 63 is lost.
#[tactic(auto, using(crate::proofs::WordSteps::shifted_out_up))]
fn word_up(x: u64, count: u64) -> u64
    ensures { result ≡ x * 2 ^ count % 2 ^ 64 }
{
    if count < 64 { x << count } else { 0 }
}

/// A word shifted down; what passes bit 0 is lost.
#[tactic(auto, using(crate::proofs::WordSteps::shifted_out_down))]
fn word_down(x: u64, count: u64) -> u64
    ensures { result ≡ x / 2 ^ count }
{
    if count < 64 { x >> count } else { 0 }
}

/// Each word shifted up.
pub(crate) fn shifted_up(alloc: Global, xs: &[u64], count: u64) -> Result<Words, AllocError>
    ensures { IfOk result (λ words. words ≡ map (λ x. x * 2 ^ count % 2 ^ 64) xs.now) }
{
    let mut words = Vec::with_capacity(alloc, xs.len())?;
    for x in xs {
        words.push(word_up(*x, count))?;
    }
    Ok(Words::new(words))
}

/// Each word shifted down.
pub(crate) fn shifted_down(alloc: Global, xs: &[u64], count: u64) -> Result<Words, AllocError>
    ensures { IfOk result (λ words. words ≡ map (λ x. x / 2 ^ count) xs.now) }
{
    let mut words = Vec::with_capacity(alloc, xs.len())?;
    for x in xs {
        words.push(word_down(*x, count))?;
    }
    Ok(Words::new(words))
}

/// Some words in a row, as many of them as there are.
#[tactic(auto, using(crate::proofs::WordSteps::part_steps))]
pub(crate) fn part(
    alloc: Global,
    xs: &[u64],
    from: usize,
    count: usize,
) -> Result<Words, AllocError>
    ensures { IfOk result (λ words. words ≡ take count (drop from xs.now)) }
{
    let start = from.min(xs.len());
    let len = count.min(xs.len() - start);
    let mut words = Vec::new(alloc);
    words.extend_from_slice(&xs[start..start + len])?;
    Ok(Words::new(words))
}

/// The words of one list and then of another.
pub(crate) fn joined(alloc: Global, xs: &[u64], ys: &[u64]) -> Result<Words, AllocError>
    ensures { IfOk result (λ words. words ≡ xs.now ++ ys.now) }
{
    let mut words = Vec::with_capacity(alloc, xs.len() + ys.len())?;
    words.extend_from_slice(xs)?;
    words.extend_from_slice(ys)?;
    Ok(Words::new(words))
}

/// The words with one given anew, where it is there.
#[tactic(auto, using(crate::proofs::WordSteps::set_past_end))]
pub(crate) fn with_word(
    alloc: Global,
    xs: &[u64],
    index: usize,
    word: u64,
) -> Result<Words, AllocError>
    ensures { IfOk result (λ words. words ≡ set xs.now index word) }
{
    let mut words = Vec::new(alloc);
    words.extend_from_slice(xs)?;
    if index < words.len() {
        words[index] = word;
    }
    Ok(Words::new(words))
}

/// One word several times.
pub(crate) fn repeated(alloc: Global, word: u64, count: usize) -> Result<Words, AllocError>
    ensures { IfOk result (λ words. words ≡ replicate count word) }
{
    Ok(Words::new(vec![in alloc; word; count]?))
}

/// The sum of all words modulo 2^64.
pub(crate) fn total(xs: &[u64]) -> u64
    ensures { result ≡ sum xs.now % 2 ^ 64 }
{
    let mut total: u64 = 0;
    for x in xs {
        total = total.wrapping_add(*x);
    }
    total
}

/// Each word, `count` times in a row.
#[tactic(auto, using(crate::proofs::WordSteps::stretch_more))]
pub(crate) fn each_repeated(alloc: Global, xs: &[u64], count: usize) -> Result<Words, AllocError>
    ensures { IfOk result (λ words. words ≡ flat_map (λ x. replicate count x) xs.now) }
{
    let mut words = Vec::new(alloc);
    for x in xs {
        words.extend_from_slice(repeated(alloc, *x, count)?.as_slice())?;
    }
    Ok(Words::new(words))
}

/// All words, `count` times.
pub(crate) fn tiled(alloc: Global, xs: &[u64], count: usize) -> Result<Words, AllocError>
    ensures { IfOk result (λ words. words ≡ flat_map (λ k. xs.now) (range_with_len 0 count)) }
{
    let mut words = Vec::new(alloc);
    for _time in 0..count {
        words.extend_from_slice(xs)?;
    }
    Ok(Words::new(words))
}

/// The sums, modulo 2^64, of `count` parts, each of `size` words.
pub(crate) fn totals(
    alloc: Global,
    xs: &[u64],
    size: usize,
    count: usize,
) -> Result<Words, AllocError>
    ensures { IfOk result (λ words. words ≡ map (λ k. sum (take size (drop (k * size) xs.now)) % 2 ^ 64) (range_with_len 0 count)) }
{
    let mut words = Vec::new(alloc);
    let mut from = 0;
    for _part in 0..count {
        let len = size.min(xs.len() - from);
        words.push(total(&xs[from..from + len]))?;
        from += len;
    }
    Ok(Words::new(words))
}

/// The first word, and 0 where there is none.
pub(crate) fn first_word(xs: &[u64]) -> u64
    ensures { result ≡ first_word xs.now }
{
    if xs.is_empty() { 0 } else { xs[0] }
}
