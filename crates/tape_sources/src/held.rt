// Tapes in memory, as a source.
ghost use Rattle.std.specs.Prelude.{◌≡◌, ◌≤◌, ℕ, length, slice_index};
ghost use Rattle.tape_sources.specs.Parties.{tape_of, four_of};

use outside::{Failed, TapeSource};
use tape_file::Tapes;

/// Tapes in memory, of which each party draws from the front. It never fails.
#[derive(Drop)]
pub struct HeldTapes {
    tapes: Tapes,
    // How many words each party took.
    taken: [u64; 4],
    ghost within: { (p : ℕ) → slice_index taken p ≤ length (tape_of tapes p) },
}

// The tape of a party.
#[tactic(auto, unfolding(crate::specs::Parties::tape_of))]
fn tape(tapes: &Tapes, party: u8) -> &[u64]
    requires { party ≤ 3 }
    ensures { result.now ≡ tape_of tapes.now party }
{
    match party {
        0 => tapes.dealer(),
        1 => tapes.miner1(),
        2 => tapes.miner2(),
        _ => tapes.miner3(),
    }
}

impl HeldTapes {
    ghost use Rattle.tape_sources.specs.Held.{held_state};

    /// No word was taken yet.
    pub fn new(tapes: Tapes) -> Self
        ensures { four_of (held_state result) ≡ tapes }
    {
        HeldTapes {
            tapes,
            taken: [0; 4],
        }
    }
}

impl TapeSource for HeldTapes {
    ghost use Rattle.tape_sources.specs.Held.{held_state};

    ghost state = { held_state };

    fn left(&self, party: u8) -> u64 {
        tape(&self.tapes, party).len() as u64 - self.taken[party as usize]
    }

    fn take(&mut self, party: u8, into: &mut [u64]) -> Result<(), Failed> {
        let words = tape(&self.tapes, party);
        let from = self.taken[party as usize] as usize;
        let end = from + into.len();
        into.copy_from_slice(&words[from..end]);
        self.taken[party as usize] = end as u64;
        Ok(())
    }
}
