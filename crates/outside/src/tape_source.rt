// A source of the words that the dealer and the miners draw.
ghost use Rattle.std.specs.Prelude.{◌≡◌, ◌≤◌, true, length, OnOk, OnErr};
ghost use Rattle.outside.specs.Causes.{HasLinkCause, IsSteadyLink};
ghost use Rattle.outside.specs.Tapes.{TapesState, Drew, SameTapes, faults_of, left_of};

use crate::Failed;

/// A source of the words that the dealer, party 0, and miners 1, 2 and 3 draw.
pub trait TapeSource {
    ghost state: { Self → TapesState };

    /// How many words of this party's tape are left.
    fn left(&self, party: u8) -> u64
        requires { party ≤ 3 }
        ensures { result ≡ left_of (state self.now) party };

    /// Draws the next words of this party's tape, as many as the slice has room for. After an error none is drawn,
    /// and the slice may hold any words.
    fn take(&mut self, party: u8, into: &mut [u64]) -> Result<(), Failed>
        requires party { party ≤ 3 }
        requires enough { length into.old ≤ left_of (state self.old) party }
        ensures ok { OnOk result (Drew (state self.old) (state self.new) party into.new) }
        ensures err { OnErr result (SameTapes (state self.old) (state self.new)) }
        ensures cause { HasLinkCause (faults_of (state self.old)) (faults_of (state self.new)) result }
        ensures steady { (state self.old).steady ≡ true →
            IsSteadyLink (faults_of (state self.old)) (faults_of (state self.new)) result ⊥ }
        ensures still { (state self.old).steady ≡ true → (state self.new).steady ≡ true };
}
