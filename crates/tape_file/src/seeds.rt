// Tapes that are drawn from a seed.
ghost use Rattle.std.specs.Prelude.{◌≡◌, ◌+◌, ◌*◌, ◌^◌, ◌<◌, ◌≤◌, IfOk};
ghost use Rattle.tape_file.specs.Seeds.{seed_tape, seed_tapes};
ghost use Rattle.rand_chacha.specs.ChaCha.{word_at};

use crate::tapes::Tapes;
use rand_chacha::ChaCha20Rng;
use rand_core::SeedableRng;
use rand_core::utils::NextWord;
use std::alloc::{AllocError, Global};

/// The next two words of a stream, the low half of a tape's word first.
fn next_tape_word(rng: &mut ChaCha20Rng) -> u64
    requires { rng.old.word_pos + 2 < 2 ^ 68 }
    ensures word { result ≡ word_at 10 rng.old.key rng.old.stream rng.old.word_pos
        + 2 ^ 32 * word_at 10 rng.old.key rng.old.stream (rng.old.word_pos + 1) }
    ensures place { rng.new ≡ record rng.old { word_pos = rng.old.word_pos + 2 } }
{
    let low = rng.next_word();
    let high = rng.next_word();
    u64::from(low) | (u64::from(high) << 32)
}

/// A party's tape of this many words.
fn seed_tape(
    alloc: Global,
    seed: [u8; 32],
    party: u64,
    words: usize,
) -> Result<Vec<u64>, AllocError>
    requires { words ≤ 16777216 }
    ensures { IfOk result (λ tape. tape.items ≡ seed_tape seed party words) }
{
    let mut rng = ChaCha20Rng::from_seed(seed);
    rng.set_stream(party);
    let mut tape = Vec::with_capacity(alloc, words)?;
    for _k in 0..words {
        tape.push(next_tape_word(&mut rng))?;
    }
    Ok(tape)
}

/// Tapes of this many words each from a seed. Word k of a tape has as its low half word 2k and as its
/// high half word 2k+1 of a stream of ChaCha20 under the seed, the dealer's tape of stream 0 and those of
/// miners 1, 2 and 3 of streams 1, 2 and 3.
pub fn from_seed(alloc: Global, seed: [u8; 32], words: u64) -> Result<Tapes, AllocError>
    requires { words ≤ 16777216 }
    ensures { IfOk result (λ tapes. tapes ≡ seed_tapes seed words) }
{
    let words = words as usize;
    Ok(Tapes::new(
        seed_tape(alloc, seed, 0, words)?,
        seed_tape(alloc, seed, 1, words)?,
        seed_tape(alloc, seed, 2, words)?,
        seed_tape(alloc, seed, 3, words)?,
    ))
}
