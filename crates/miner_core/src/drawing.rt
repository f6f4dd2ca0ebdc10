// What an engine draws of its tape: the words that its gates want, and no others.
ghost use Rattle.std.specs.Prelude.{◌≡◌, ◌≤◌, IfOk, OnOk, IfSome, IfNone};
ghost use Rattle.proto_core.specs.Parties.{count_of};
ghost use Rattle.outside.specs.Tapes.{TapesState};
ghost use Rattle.gate_node.specs.declared.standing.Standing.TheVariants.{Wants};
ghost use Rattle.miner_core.specs.Drawing.{left_for, Draws, Supplied, RunsOn, IsTooShort};
ghost use Rattle.miner_core.specs.Engines.{IsSoundAlways};

use crate::answer::Lost;
use crate::engine::Engine;
use gate_node::Standing;
use outside::TapeSource;
use proto_core::Party;

/// How many words are to be drawn where the gates stand so: as many as they want, where no fewer than these are `left`.
fn wanted(standing: Standing, left: u64) -> Option<u64>
    ensures some { IfSome result (λ count. (standing ≡ Wants count) × (count ≤ left)) }
    ensures none { IfNone result (IsTooShort standing left) }
{
    match standing {
        Standing::Wants(count) => {
            if count <= u128::from(left) {
                Some(count as u64)
            } else {
                None
            }
        }
        Standing::Through | Standing::Waits(..) | Standing::Unfit => None,
    }
}

/// The number under which a source knows this miner.
fn own_party<P: Party>() -> u8
    ensures number { result ≡ count_of P.me }
    ensures small { result ≤ 3 }
{
    P::number().as_u8()
}

/// How many words of this miner's tape a source has left.
pub(crate) fn words_left<P: Party, T: TapeSource>(tapes: &T) -> u64
    ensures { result ≡ left_for P.me (T.state tapes.now) }
{
    tapes.left(own_party::<P>())
}

impl<P: Party> Engine<P> {
    /// Draws so many words of its tape to the place where its gates take them.
    fn draw<T: TapeSource>(&mut self, count: u64, tapes: &mut T) -> Result<(), Lost>
        requires { count ≤ left_for P.me (T.state tapes.old) }
        ensures supplied { OnOk result (Supplied P.me count self.old self.new (T.state tapes.old) (T.state tapes.new)) }
        ensures draws { Draws P.me (T.state tapes.old) (T.state tapes.new) result }
    {
        self.node
            .supply_from(own_party::<P>(), count as usize, tapes)?;
        Ok(())
    }

    /// Does all that the messages and the tape lead to, and answers where it then stands. Words are drawn where a gate wants them that begins, as
    /// many as it wants; where fewer are left, none is, and the gate can't begin.
    pub fn run_on<T: TapeSource>(&mut self, tapes: &mut T) -> Result<Standing, Lost>
        requires sound { IsSoundAlways P.me self.old }
        ensures runs { IfOk result (λ standing. RunsOn P.me standing self.old self.new (T.state tapes.old) (T.state tapes.new)) }
        ensures draws { Draws P.me (T.state tapes.old) (T.state tapes.new) result }
    {
        loop {
            let standing = self.advance()?;
            let left = words_left::<P, T>(tapes);
            let Some(count) = wanted(standing, left) else {
                return Ok(standing);
            };
            self.draw(count, tapes)?;
        }
    }
}
