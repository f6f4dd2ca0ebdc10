ghost use Rattle.std.specs.Prelude.{◌≡◌, ◌≤◌, ◌↔◌, length, IfOk, IfErr, IsOk};
ghost use Rattle.proto_core.specs.Refusals.{WrongLength};
ghost use Rattle.reshare.specs.Steps.{Reshared};

use proto_core::{Block, Msg, Party, Refused, ShareRing};
use reshare::{Reshare, Sent};
use std::marker::Model;

/// One party's part in handing a block to the client: the miners share it anew, and each hands its new share over.
///
/// Contracts see it as the party's share and its mask. The message that comes has as many words as the block has
/// elements.
#[derive(Drop)]
pub struct Result3<R, P, S> {
    resharing: Reshare<R, P, S>,
}

impl<R, P, S> Model for Result3<R, P, S> {
    ghost use Rattle.std.specs.Prelude.{ℕ, List};

    ghost Value = { List ℕ × List ℕ };

    ghost view = { λ m. m.resharing };
}

impl<R: ShareRing, P: Party> Result3<R, P, Sent> {
    /// Begins to hand over the block `u`, with as many drawn words. The message, the mask, is for the next miner.
    pub fn start(u: &Block<R, P>, words: &[u64]) -> (Self, Msg)
        requires { length words.now ≡ length u.now }
        ensures state { result.0 ≡ (u.now, words.now) }
        ensures mask { result.1 ≡ words.now }
    {
        let (resharing, to_next) = Reshare::start(u, words);
        (Result3 { resharing }, to_next)
    }

    /// Takes the previous miner's mask, and answers the share words for the client. A message of a wrong length is
    /// refused.
    pub fn got(self, msg: &Msg) -> Result<Block<R, P>, Refused<Self>>
        ensures taken { IsOk result ↔ (length msg.now ≡ length self.0) }
        ensures ok { IfOk result (λ share. Reshared R.ring self msg.now share) }
        ensures err { IfErr result (WrongLength self (length self.0) (length msg.now)) }
    {
        match self.resharing.got(msg) {
            Ok(share) => Ok(share),
            Err(refused) => Err(Refused {
                state: Result3 {
                    resharing: refused.state,
                },
                cause: refused.cause,
            }),
        }
    }
}
