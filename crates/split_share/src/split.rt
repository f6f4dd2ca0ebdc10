ghost use Rattle.std.specs.Prelude.{◌≡◌, ◌≤◌, ◌↔◌, length, IfOk, IfErr, IsOk};
ghost use Rattle.proto_core.specs.Refusals.{WrongLength};
ghost use Rattle.split_share.specs.SplitStrand.{signed, signed_sum, held_of};
ghost use Rattle.split_share.specs.Steps.{OneSplits, Got12, Got13};

use proto_core::{
    AddRing, Block, Msg, P1, P2, P3, Refused, ShareRing, XorRing, subtract_blocks, zero_block,
};
use std::marker::{Model, PhantomData};

/// The first miner has sent its messages, and awaits none.
#[derive(Drop)]
pub struct Sent;

/// The first miner's message is awaited.
#[derive(Drop)]
pub struct Waiting;

/// One miner's part in splitting a block of numbers, each into two words, in the state `S`.
///
/// The two blocks that a miner has at the end are its shares of the first words and of the second. The words' sum, or
/// the first less the second where the splitting is negated, is the number.
///
/// The first miner deals its share to the other two, so that each has one summand of the number, and hands it on as a
/// word that it alone knows: its shares by xor are the word and two zeros.
#[derive(Drop)]
pub struct Split<P, S> {
    share: Block<AddRing, P>,
    negated: bool,
    of: PhantomData<S>,
}

impl<P, S> Model for Split<P, S> {
    ghost use Rattle.std.specs.Prelude.{◌≤◌, length};
    ghost use Rattle.split_share.specs.SplitStrand.{Held};

    ghost Value = { Held };

    ghost view = { λ s. record { share = s.share; negated = s.negated } };

    ghost invariant = { λ s. length s.share ≤ 512 };
}

impl<P, S> Split<P, S> {
    /// How many numbers are split.
    pub fn size(&self) -> usize
        ensures { result ≡ length self.now.share }
    {
        self.share.len()
    }
}

impl Split<P1, Sent> {
    /// Splits the first miner's shares with as many drawn words. The messages are for the second and the third miner,
    /// the blocks the first miner's shares of both words, which are zeros, negated or not.
    pub fn start(
        u: &Block<AddRing, P1>,
        words: &[u64],
    ) -> (Msg, Msg, Block<XorRing, P1>, Block<XorRing, P1>)
        requires { length words.now ≡ length u.now }
        ensures { OneSplits u.now words.now result.0 result.1 result.2 result.3 }
    {
        let n = u.len();
        let parts: Block<AddRing, P1> = Block::from_words(words);
        let to_two = Msg::from_block(&parts);
        let to_three = Msg::from_block(&subtract_blocks(u, &parts));
        (to_two, to_three, zero_block(n), zero_block(n))
    }
}

impl Split<P2, Waiting> {
    /// Begins to split the second miner's shares.
    pub fn start(u: &Block<AddRing, P2>, negated: bool) -> Self
        ensures { result ≡ held_of u.now negated }
    {
        Split {
            share: u.copy(),
            negated,
            of: PhantomData,
        }
    }

    /// Takes the first miner's words, and answers the second miner's shares: the whole first words, and zeros. A message
    /// of a wrong length is refused.
    pub fn got12(self, msg: &Msg) -> Result<(Block<XorRing, P2>, Block<XorRing, P2>), Refused<Self>>
        ensures taken { IsOk result ↔ (length msg.now ≡ length self.share) }
        ensures ok { IfOk result (λ x. Got12 self msg.now x.0 x.1) }
        ensures err { IfErr result (WrongLength self (length self.share) (length msg.now)) }
    {
        let n = self.share.len();
        if msg.len() != n {
            return Err(Refused::wrong_length(self, n, msg.len()));
        }
        Ok((sum_with(&self.share, msg.words(), false), zero_block(n)))
    }
}

impl Split<P3, Waiting> {
    /// Begins to split the third miner's shares.
    pub fn start(u: &Block<AddRing, P3>, negated: bool) -> Self
        ensures { result ≡ held_of u.now negated }
    {
        Split {
            share: u.copy(),
            negated,
            of: PhantomData,
        }
    }

    /// Takes the first miner's words, and answers the third miner's shares: zeros, and the whole second words. A message
    /// of a wrong length is refused.
    pub fn got13(self, msg: &Msg) -> Result<(Block<XorRing, P3>, Block<XorRing, P3>), Refused<Self>>
        ensures taken { IsOk result ↔ (length msg.now ≡ length self.share) }
        ensures ok { IfOk result (λ x. Got13 self msg.now x.0 x.1) }
        ensures err { IfErr result (WrongLength self (length self.share) (length msg.now)) }
    {
        let n = self.share.len();
        if msg.len() != n {
            return Err(Refused::wrong_length(self, n, msg.len()));
        }
        Ok((
            zero_block(n),
            sum_with(&self.share, msg.words(), self.negated),
        ))
    }
}

/// The share with the words that came added, or the negative of that, now as words that are shared by xor.
#[tactic(auto, using(proto_core::proofs::Each::each_steps), unfolding(crate::specs::SplitStrand::signed_sum))]
fn sum_with<P>(u: &Block<AddRing, P>, got: &[u64], negated: bool) -> Block<XorRing, P>
    requires { length got.now ≡ length u.now }
    ensures words { result ≡ signed_sum negated (length u.now) u.now got.now }
    ensures len { length result ≡ length u.now }
{
    let mut words = Block::new();
    for at in 0..u.len() {
        words.append(with_sign(negated, AddRing::add(u.word(at), got[at])));
    }
    words
}

/// The word, or its negative modulo 2^64.
pub(crate) fn with_sign(negated: bool, word: u64) -> u64
    ensures { result ≡ signed negated word }
{
    if negated { AddRing::sub(0, word) } else { word }
}
