// Truth values packed into words, as values of gates.
ghost use Rattle.std.specs.Prelude.{◌≡◌, IfOk};
ghost use Rattle.bit_words.specs.Gathered as G;

use crate::words::Words;
use std::alloc::{AllocError, Global};

// No memory holds more bits.
const MOST_BITS: u64 = 4611686018427387904;

/// Bit 0 of each word, packed.
pub(crate) fn packed_bits(alloc: Global, xs: &[u64]) -> Result<Words, AllocError>
    ensures { IfOk result (λ words. words ≡ G.packed xs.now) }
{
    Ok(Words::new(bit_words::packed(alloc, xs)?))
}

/// The first `count` bits, each as a word of its own.
pub(crate) fn single_bits(alloc: Global, xs: &[u64], count: u64) -> Result<Words, AllocError>
    ensures { IfOk result (λ words. words ≡ G.unpacked xs.now count) }
{
    Ok(Words::new(bit_words::unpacked(alloc, xs, count as usize)?))
}

/// Bit 0 of the words, `count` times.
pub(crate) fn bit_again(alloc: Global, xs: &[u64], count: u64) -> Result<Words, AllocError>
    ensures { IfOk result (λ words. words ≡ G.bits_repeated xs.now count) }
{
    if count > MOST_BITS {
        return Err(AllocError);
    }
    let words = bit_words::bits_repeated(alloc, xs, count as usize)?;
    Ok(Words::new(words))
}

/// One bit, as a word.
pub(crate) fn bit_at(alloc: Global, xs: &[u64], index: u64) -> Result<Words, AllocError>
    ensures { IfOk result (λ words. words ≡ G.bit_taken xs.now index) }
{
    Ok(Words::new(bit_words::bit_taken(alloc, xs, index as usize)?))
}

/// One bit given anew by bit 0 of others.
pub(crate) fn one_bit_given(
    alloc: Global,
    xs: &[u64],
    index: u64,
    others: &[u64],
) -> Result<Words, AllocError>
    ensures { IfOk result (λ words. words ≡ G.bit_put xs.now index others.now) }
{
    let words = bit_words::bit_put(alloc, xs, index as usize, others)?;
    Ok(Words::new(words))
}

/// The first `n` bits of the words, followed by the first `m` of the others.
pub(crate) fn bits_followed(
    alloc: Global,
    xs: &[u64],
    n: u64,
    others: &[u64],
    m: u64,
) -> Result<Words, AllocError>
    ensures { IfOk result (λ words. words ≡ G.bits_joined xs.now n others.now m) }
{
    if n > MOST_BITS || m > MOST_BITS - n {
        return Err(AllocError);
    }
    let words = bit_words::bits_joined(alloc, xs, n as usize, others, m as usize)?;
    Ok(Words::new(words))
}
