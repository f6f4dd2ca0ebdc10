ghost use Rattle.std.specs.Prelude.{◌≡◌, ◌≤◌, ◌↔◌, ℕ, List, length, IfOk, IfErr, IsOk};
ghost use Rattle.proto_core.specs.Refusals.{WrongLength};
ghost use Rattle.open_result.specs.Steps.{Masks, Keeps, Sums};

use proto_core::{Block, Msg, Party, Refused, ShareRing, sum_of_shares};
use reshare::take_mask;
use std::marker::{Model, PhantomData};

/// The previous miner's mask is awaited.
#[derive(Drop)]
pub struct Masked;

/// The previous miner's new share is awaited.
#[derive(Drop)]
pub struct FromPrev;

/// The next miner's new share is awaited.
#[derive(Drop)]
pub struct FromNext;

/// One party's part in opening a block, in the state `S`, which says what message is awaited.
///
/// The three miners share the block anew, and then send their new shares to one another. A state holds the party's share
/// and beside it the party's mask or, once that came, the previous miner's new share.
/// Each message has as many words as the block has elements.
#[derive(Drop)]
pub struct Open<R, P, S> {
    share: Block<R, P>,
    other: Block<R, P>,
    of: PhantomData<S>,
}

impl<R, P, S> Model for Open<R, P, S> {
    ghost Value = { List ℕ × List ℕ };

    ghost view = { λ o. (o.share, o.other) };

    ghost invariant = { λ o. (length o.share ≤ 512) × (length o.other ≡ length o.share) };
}

impl<R, P, S> Open<R, P, S> {
    /// How many words each message has.
    pub fn size(&self) -> usize
        ensures { result ≡ length self.now.0 }
    {
        self.share.len()
    }
}

impl<R: ShareRing, P: Party> Open<R, P, Masked> {
    /// Begins to open the block `u` with as many drawn words. The message, the mask, is for the next miner.
    pub fn start(u: &Block<R, P>, words: &[u64]) -> (Self, Msg)
        requires { length words.now ≡ length u.now }
        ensures state { result.0 ≡ (u.now, words.now) }
        ensures mask { result.1 ≡ words.now }
    {
        let share = u.copy();
        let mask = Block::from_words(words);
        let to_next = Msg::from_block(&mask);
        (
            Open {
                share,
                other: mask,
                of: PhantomData,
            },
            to_next,
        )
    }

    /// Takes the previous miner's mask. The messages, both the new share, are for the next and the previous miner.
    /// A message of a wrong length is refused.
    pub fn got(self, msg: &Msg) -> Result<(Open<R, P, FromPrev>, Msg, Msg), Refused<Self>>
        ensures taken { IsOk result ↔ (length msg.now ≡ length self.0) }
        ensures ok { IfOk result (λ x. Masks R.ring self msg.now x.0 x.1 x.2) }
        ensures err { IfErr result (WrongLength self (length self.0) (length msg.now)) }
    {
        let share = match take_mask(&self.share, &self.other, msg) {
            Ok(share) => share,
            Err(cause) => return Err(Refused { state: self, cause }),
        };
        let to_next = Msg::from_block(&share);
        let to_previous = Msg::from_block(&share);
        Ok((
            Open {
                share,
                other: self.other,
                of: PhantomData,
            },
            to_next,
            to_previous,
        ))
    }
}

impl<R: ShareRing, P: Party> Open<R, P, FromPrev> {
    /// Takes the previous miner's new share. A message of a wrong length is refused.
    pub fn got(self, msg: &Msg) -> Result<Open<R, P, FromNext>, Refused<Self>>
        ensures taken { IsOk result ↔ (length msg.now ≡ length self.0) }
        ensures ok { IfOk result (λ after. Keeps self msg.now after) }
        ensures err { IfErr result (WrongLength self (length self.0) (length msg.now)) }
    {
        let n = self.share.len();
        if msg.len() != n {
            return Err(Refused::wrong_length(self, n, msg.len()));
        }
        Ok(Open {
            share: self.share,
            other: Block::from_words(msg.words()),
            of: PhantomData,
        })
    }
}

impl<R: ShareRing, P: Party> Open<R, P, FromNext> {
    /// Takes the next miner's new share, and answers the opened words. A message of a wrong length is refused.
    pub fn got(self, msg: &Msg) -> Result<Msg, Refused<Self>>
        ensures taken { IsOk result ↔ (length msg.now ≡ length self.0) }
        ensures ok { IfOk result (λ opened. Sums R.ring self msg.now opened) }
        ensures bound { IfOk result (λ opened. length opened ≤ 512) }
        ensures err { IfErr result (WrongLength self (length self.0) (length msg.now)) }
    {
        let n = self.share.len();
        if msg.len() != n {
            return Err(Refused::wrong_length(self, n, msg.len()));
        }
        let next = Block::from_words(msg.words());
        let sum = sum_of_shares(&self.share, &self.other, &next);
        Ok(Msg::from_block(&sum))
    }
}
