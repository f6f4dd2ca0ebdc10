ghost use Rattle.std.specs.Prelude.{◌≡◌, ◌≢◌, ◌≤◌, ◌↔◌, ℕ, List, length, IfOk, IfErr, IsOk};
ghost use Rattle.proto_core.specs.Refusals.{WrongLength};
ghost use Rattle.proto_core.specs.declared.refused.BadMessage.TheVariants.{BadLength};
ghost use Rattle.reshare.specs.Steps.{Reshared};

use proto_core::{BadMessage, Block, Msg, Party, Refused, ShareRing};
use std::marker::{Model, PhantomData};

/// The previous miner's mask is awaited.
#[derive(Drop)]
pub struct Sent;

/// One party's part in sharing a block anew, in the state `S`, which says what message is awaited.
///
/// It holds the party's share and its mask. The message that comes has as many words as the block has elements.
#[derive(Drop)]
pub struct Reshare<R, P, S> {
    share: Block<R, P>,
    mask: Block<R, P>,
    of: PhantomData<S>,
}

impl<R, P, S> Model for Reshare<R, P, S> {
    ghost Value = { List ℕ × List ℕ };

    ghost view = { λ m. (m.share, m.mask) };

    ghost invariant = { λ m. (length m.share ≤ 512) × (length m.mask ≡ length m.share) };
}

/// A share with the party's own mask added, and the previous party's, which the message has, taken away.
/// A message of a wrong length is refused.
pub fn take_mask<R: ShareRing, P>(
    share: &Block<R, P>,
    mask: &Block<R, P>,
    msg: &Msg,
) -> Result<Block<R, P>, BadMessage>
    requires { length mask.now ≡ length share.now }
    ensures taken { IsOk result ↔ (length msg.now ≡ length share.now) }
    ensures ok { IfOk result (λ new. Reshared R.ring (share.now, mask.now) msg.now new) }
    ensures err { IfErr result (λ cause. cause ≡ BadLength (length share.now) (length msg.now)) }
{
    if msg.len() != share.len() {
        return Err(BadMessage::BadLength {
            want: share.len() as u64,
            have: msg.len() as u64,
        });
    }
    let previous = Block::from_words(msg.words());
    Ok(proto_core::reshare(share, mask, &previous))
}

impl<R: ShareRing, P: Party> Reshare<R, P, Sent> {
    /// Begins to share the block `u` anew, with as many drawn words. The message, the mask, is for the next miner.
    pub fn start(u: &Block<R, P>, words: &[u64]) -> (Self, Msg)
        requires { length words.now ≡ length u.now }
        ensures state { result.0 ≡ (u.now, words.now) }
        ensures mask { result.1 ≡ words.now }
    {
        let share = u.copy();
        let mask = Block::from_words(words);
        let to_next = Msg::from_block(&mask);
        (
            Reshare {
                share,
                mask,
                of: PhantomData,
            },
            to_next,
        )
    }

    /// Takes the previous miner's mask, and answers the new share. A message of a wrong length is refused.
    pub fn got(self, msg: &Msg) -> Result<Block<R, P>, Refused<Self>>
        ensures taken { IsOk result ↔ (length msg.now ≡ length self.0) }
        ensures ok { IfOk result (λ share. Reshared R.ring self msg.now share) }
        ensures err { IfErr result (WrongLength self (length self.0) (length msg.now)) }
    {
        match take_mask(&self.share, &self.mask, msg) {
            Ok(share) => Ok(share),
            Err(cause) => Err(Refused { state: self, cause }),
        }
    }
}
