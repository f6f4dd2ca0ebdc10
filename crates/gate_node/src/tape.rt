// A miner's random words.
ghost use Rattle.std.specs.Prelude.{◌≡◌, ◌≤◌, length, drop, true, IfErr, OnOk, OnErr};
ghost use Rattle.outside.specs.Tapes.{TapesState, left_of};
ghost use Rattle.block_steps.specs.Inboxes.{LetsGo};
ghost use Rattle.gate_node.specs.Supplies.{DrawsTo, SuppliesTape, IsUnsupplied};

use crate::supply_err::SupplyErr;
use outside::TapeSource;
use std::marker::Model;

/// The words of a miner's tape that were supplied, and how many of them were drawn. Contracts see all that were supplied, and beside them
/// those that were not drawn.
#[derive(Drop)]
pub(crate) struct Tape {
    words: Vec<u64>,
    drawn: usize,
}

impl Model for Tape {
    ghost use Rattle.std.specs.Prelude.{◌≤◌, ℕ, List, length, drop};

    ghost Value = { List ℕ × List ℕ };

    ghost view = { λ t. (t.words.items, drop t.drawn t.words.items) };

    ghost invariant = { λ t. t.drawn ≤ length t.words.items };
}

/// Draws so many words of a party's tape behind those that are there; else all is as before.
fn draw_to<T: TapeSource>(
    words: &mut Vec<u64>,
    party: u8,
    count: usize,
    tapes: &mut T,
) -> Result<(), SupplyErr>
    requires party { party ≤ 3 }
    requires enough { count ≤ left_of (T.state tapes.old) party }
    ensures ok { OnOk result (DrawsTo party count words.old.items words.new.items (T.state tapes.old) (T.state tapes.new)) }
    ensures err { OnErr result (words.new.items ≡ words.old.items) }
    ensures cause { IfErr result (IsUnsupplied (T.state tapes.old) (T.state tapes.new)) }
    ensures still { (T.state tapes.old).steady ≡ true → (T.state tapes.new).steady ≡ true }
{
    let held = words.len();
    let Some(all) = held.checked_add(count) else {
        return Err(SupplyErr::Memory);
    };
    words.resize(all, 0)?;
    let taken = tapes.take(party, &mut words.as_mut_slice()[held..]);
    if let Err(failed) = taken {
        words.truncate(held);
        return Err(SupplyErr::from(failed));
    }
    Ok(())
}

impl Tape {
    /// No word was drawn.
    pub fn new(words: Vec<u64>) -> Self
        ensures { result ≡ (words.items, words.items) }
    {
        Tape { words, drawn: 0 }
    }

    /// Further words, so many of a party's tape, drawn from a source where they are to lie; else all is as before.
    #[tactic(auto, using(crate::proofs::Tapes::tape_steps))]
    pub fn supply_from<T: TapeSource>(
        &mut self,
        party: u8,
        count: usize,
        tapes: &mut T,
    ) -> Result<(), SupplyErr>
        requires party { party ≤ 3 }
        requires enough { count ≤ left_of (T.state tapes.old) party }
        ensures ok { OnOk result (SuppliesTape party count self.old self.new (T.state tapes.old) (T.state tapes.new)) }
        ensures err { OnErr result (self.new ≡ self.old) }
        ensures cause { IfErr result (IsUnsupplied (T.state tapes.old) (T.state tapes.new)) }
        ensures still { (T.state tapes.old).steady ≡ true → (T.state tapes.new).steady ≡ true }
    {
        draw_to(&mut self.words, party, count, tapes)
    }

    /// All words that were supplied.
    pub fn supplied(&self) -> &[u64]
        ensures { result.now ≡ self.now.0 }
    {
        &self.words
    }

    /// The words that were not drawn.
    pub fn left(&self) -> &[u64]
        ensures { result.now ≡ self.now.1 }
    {
        &self.words.as_slice()[self.drawn..]
    }

    /// Draws words.
    #[tactic(auto, using(crate::proofs::Tapes::tape_steps))]
    pub fn draw(&mut self, count: usize)
        requires { count ≤ length self.old.1 }
        ensures all { self.new.0 ≡ self.old.0 }
        ensures left { self.new.1 ≡ drop count self.old.1 }
    {
        self.drawn += count;
    }
    /// Lets go all words, if all were drawn; else it is as before.
    #[tactic(auto, using(crate::proofs::Tapes::letting_go))]
    pub fn let_go(&mut self)
        ensures lets_go { LetsGo self.old self.new }
        ensures left { self.new.1 ≡ self.old.1 }
    {
        if self.drawn == self.words.len() {
            self.words.clear();
            self.drawn = 0;
        }
    }
}
