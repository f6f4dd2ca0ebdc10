// Tapes of a seed, as a source.
ghost use Rattle.std.specs.Prelude.{◌≡◌, ◌+◌, ◌*◌, ◌^◌, ◌<◌, ◌≤◌, ℕ, List, length, slice_index};
ghost use Rattle.rand_chacha.specs.ChaCha.{word_at};
ghost use Rattle.tape_file.specs.Seeds.{seed_tapes};
ghost use Rattle.tape_sources.specs.Parties.{four_of};
ghost use Rattle.tape_sources.specs.SeedWords.{AreStreamsOf, IsStreamOf, seed_words};

use outside::{Failed, TapeSource};
use rand_chacha::ChaCha20Rng;
use rand_core::SeedableRng;
use rand_core::utils::NextWord;

/// Tapes of a seed, all of one length, of which each word is made where it is asked for, by a generator for each party. It never fails.
#[derive(Drop)]
pub struct SeedTapes {
    seed: [u8; 32],
    // How many words each tape has.
    words: u64,
    // How many words each party took, and its generator, which makes the next.
    taken: [u64; 4],
    streams: [ChaCha20Rng; 4],
    ghost within: { (p : ℕ) → slice_index taken p ≤ words },
    ghost short: { words ≤ 16777216 },
    ghost next: { AreStreamsOf seed taken streams },
}

// The next two words of a stream, the low half of a tape's word first.
fn next_tape_word(rng: &mut ChaCha20Rng) -> u64
    requires { rng.old.word_pos + 2 < 2 ^ 68 }
    ensures word { result ≡ word_at 10 rng.old.key rng.old.stream rng.old.word_pos
        + 2 ^ 32 * word_at 10 rng.old.key rng.old.stream (rng.old.word_pos + 1) }
    ensures place { rng.new ≡ record rng.old { word_pos = rng.old.word_pos + 2 } }
{
    let low = rng.next_word();
    let high = rng.next_word();
    u64::from(low) | (u64::from(high) << 32)
}

// The generator of a party's tape, of which no word was taken.
fn stream(seed: [u8; 32], party: u64) -> ChaCha20Rng
    ensures { IsStreamOf seed party 0 result }
{
    let mut rng = ChaCha20Rng::from_seed(seed);
    rng.set_stream(party);
    rng
}

// Makes the next words of a party's tape.
fn make_words(rng: &mut ChaCha20Rng, into: &mut [u64])
    requires { rng.old.word_pos + 2 * length into.old < 2 ^ 68 }
    ensures words { (seed : List ℕ) (party from : ℕ) → IsStreamOf seed party from rng.old → into.new ≡ seed_words seed party from (length into.old) }
    ensures next { (seed : List ℕ) (party from : ℕ) → IsStreamOf seed party from rng.old →
        IsStreamOf seed party (from + length into.old) rng.new }
{
    for k in 0..into.len() {
        into[k] = next_tape_word(rng);
    }
}

impl SeedTapes {
    ghost use Rattle.tape_sources.specs.Seeded.{seed_state};

    /// Tapes of this many words each, those that `tape_file::from_seed` makes. None was taken yet.
    pub fn new(seed: [u8; 32], words: u64) -> Self
        requires { words ≤ 16777216 }
        ensures { four_of (seed_state result) ≡ seed_tapes seed words }
    {
        SeedTapes {
            seed,
            words,
            taken: [0; 4],
            streams: [
                stream(seed, 0),
                stream(seed, 1),
                stream(seed, 2),
                stream(seed, 3),
            ],
        }
    }
}

impl TapeSource for SeedTapes {
    ghost use Rattle.tape_sources.specs.Seeded.{seed_state};

    ghost state = { seed_state };

    fn left(&self, party: u8) -> u64 {
        self.words - self.taken[party as usize]
    }

    fn take(&mut self, party: u8, into: &mut [u64]) -> Result<(), Failed> {
        let at = party as usize;
        make_words(&mut self.streams[at], into);
        self.taken[at] += into.len() as u64;
        Ok(())
    }
}
