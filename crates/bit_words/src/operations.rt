// Truth values packed into words.
ghost use Rattle.std.specs.Prelude.{◌≡◌, ◌≤◌, ◌<◌, ◌+◌, length, IfOk};
ghost use Rattle.bit_words.specs.Bits as B;
ghost use Rattle.bit_words.specs.Gathered as G;

use crate::bits::{Bits, words_with};
use std::alloc::{AllocError, Global};

/// How many words hold n truth values.
pub fn words_for(n: u64) -> u64
    ensures { result ≡ B.words_for n }
{
    n / 64 + u64::from(n % 64 != 0)
}

/// Bit k of the words, 0 past their end.
fn bit_of(words: &[u64], k: usize) -> u64
    ensures { result ≡ B.bit_of words.now k }
{
    if k / 64 < words.len() {
        (words[k / 64] >> (k % 64)) % 2
    } else {
        0
    }
}

#[derive(Drop)]
struct Elements<'a> {
    words: &'a [u64],
}

impl Bits for Elements<'_> {
    ghost bits = { λ s. G.word s.words.now };

    fn bit(&self, k: usize) -> u64 {
        if k < self.words.len() {
            self.words[k] % 2
        } else {
            0
        }
    }
}

/// Bit 0 of each word, packed.
#[tactic(auto, unfolding(crate::specs::Gathered::packed))]
pub fn packed(alloc: Global, xs: &[u64]) -> Result<Vec<u64>, AllocError>
    requires { length xs.now ≤ 4611686018427387904 }
    ensures { IfOk result (λ words. words.items ≡ G.packed xs.now) }
{
    words_with(alloc, xs.len(), &Elements { words: xs })
}

/// The first n bits, each as a word of its own.
pub fn unpacked(alloc: Global, words: &[u64], n: usize) -> Result<Vec<u64>, AllocError>
    ensures { IfOk result (λ bits. bits.items ≡ G.unpacked words.now n) }
{
    let mut bits = Vec::new(alloc);
    for k in 0..n {
        bits.push(bit_of(words, k))?;
    }
    Ok(bits)
}

#[derive(Drop)]
struct Repeated {
    bit: u64,
}

impl Bits for Repeated {
    ghost bits = { λ s k. s.bit };

    fn bit(&self, _k: usize) -> u64 {
        self.bit % 2
    }
}

/// Bit 0 of the words, n times.
#[tactic(auto, unfolding(crate::specs::Gathered::bits_repeated))]
pub fn bits_repeated(alloc: Global, words: &[u64], n: usize) -> Result<Vec<u64>, AllocError>
    requires { n ≤ 4611686018427387904 }
    ensures { IfOk result (λ bits. bits.items ≡ G.bits_repeated words.now n) }
{
    let bit = bit_of(words, 0);
    words_with(alloc, n, &Repeated { bit })
}

/// One bit, as a word.
#[tactic(auto, unfolding(crate::specs::Gathered::bit_taken))]
pub fn bit_taken(alloc: Global, words: &[u64], i: usize) -> Result<Vec<u64>, AllocError>
    ensures { IfOk result (λ bit. bit.items ≡ G.bit_taken words.now i) }
{
    Ok(vec![in alloc; bit_of(words, i)]?)
}

#[derive(Drop)]
struct Joined<'a> {
    words: &'a [u64],
    count: usize,
    others: &'a [u64],
}

impl Bits for Joined<'_> {
    ghost bits = { λ s. G.joined_at s.words.now s.count s.others.now };

    fn bit(&self, k: usize) -> u64 {
        if k < self.count {
            bit_of(self.words, k)
        } else {
            bit_of(self.others, k - self.count)
        }
    }
}

/// The first n bits of the ones, followed by the first m of the others.
#[tactic(auto, unfolding(crate::specs::Gathered::bits_joined))]
pub fn bits_joined(
    alloc: Global,
    words: &[u64],
    n: usize,
    others: &[u64],
    m: usize,
) -> Result<Vec<u64>, AllocError>
    requires { n + m ≤ 4611686018427387904 }
    ensures { IfOk result (λ bits. bits.items ≡ G.bits_joined words.now n others.now m) }
{
    let joined = Joined {
        words,
        count: n,
        others,
    };
    words_with(alloc, n + m, &joined)
}

/// A word with the bit at a place given anew.
pub fn with_bit(word: u64, place: u64, bit: u64) -> u64
    requires place { place < 64 }
    requires bit { bit < 2 }
    ensures { result ≡ G.with_bit word place bit }
{
    let turned = ((word >> place) % 2 + bit) % 2;
    word ^ (turned << place)
}

/// One bit given anew by bit 0 of others; all other bits stay.
#[tactic(auto, using(crate::proofs::Putting::one_word_put))]
pub fn bit_put(
    alloc: Global,
    words: &[u64],
    i: usize,
    others: &[u64],
) -> Result<Vec<u64>, AllocError>
    ensures { IfOk result (λ bits. bits.items ≡ G.bit_put words.now i others.now) }
{
    let mut made = Vec::from_slice(alloc, words)?;
    let place = i / 64;
    if place < made.len() {
        made[place] = with_bit(made[place], (i % 64) as u64, bit_of(others, 0));
    }
    Ok(made)
}
