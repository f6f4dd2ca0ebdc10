ghost use Rattle.std.specs.Prelude.{◌≡◌, ◌*◌, ◌≤◌, ◌↔◌, ℕ, List, length, IfOk, IfErr, IsOk};
ghost use Rattle.proto_core.specs.Refusals.{WrongLength};
ghost use Rattle.multiply.specs.Steps.{Starts, Crosses, Multiplied};

use crate::held_words::HeldWords;
use lane_kernel::LaneRing;
use proto_core::{Block, Msg, Party, Refused};
use std::marker::{Model, PhantomData};

/// The previous miner's masks are awaited.
#[derive(Drop)]
pub struct Masked;

/// The previous miner's masked factors are awaited.
#[derive(Drop)]
pub struct Crossed;

/// One party's part in multiplying two blocks, in the state `S`, which says what message is awaited.
///
/// It holds the party's shares of the factors as far as they are masked, and what masks its share of the product: first
/// with the party's own words added, then with the previous miner's taken away. The method is that of Bogdanov, Niitsoo,
/// Toft and Willemson, "High-performance secure multi-party computation for data mining applications" (2012): the factors
/// are masked anew, and each party adds three of the nine products of their shares.
#[derive(Drop)]
pub struct Mul<R, P, S> {
    u: HeldWords,
    v: HeldWords,
    mask: HeldWords,
    of: PhantomData<(R, P, S)>,
}

impl<R, P, S> Model for Mul<R, P, S> {
    ghost use Rattle.std.specs.Prelude.{◌≡◌, ◌≤◌, length};
    ghost use Rattle.multiply.specs.MulStrand.{Held};

    ghost Value = { Held };

    ghost view = { λ m. record { u = m.u; v = m.v; mask = m.mask } };

    ghost invariant = { λ m. (length m.mask ≤ 512) × (length m.u ≡ length m.mask) × (length m.v ≡ length m.mask) };
}

impl<R, P, S> Mul<R, P, S> {
    /// How many elements are multiplied.
    pub fn size(&self) -> usize
        ensures { result ≡ length self.now.mask }
    {
        self.mask.len()
    }
}

// The steps are kept out of their callers: a caller that has them inside zeroes and copies each block once more.
impl<R: LaneRing, P: Party> Mul<R, P, Masked> {
    /// Begins to multiply the blocks `u` and `v` with drawn words: for n elements n that mask `u`, n that mask `v`, n
    /// that mask the product. The message, these words, is for the next miner.
    #[tactic(auto, using(proto_core::proofs::Parts::part_steps))]
    #[inline(never)]
    pub fn start(u: &Block<R, P>, v: &Block<R, P>, words: &[u64]) -> (Self, Msg)
        requires v { length v.now ≡ length u.now }
        requires words { length words.now ≡ 3 * length u.now }
        ensures { Starts R.ring u.now v.now words.now result.0 result.1 }
    {
        let n = u.len();
        let mut miner = Mul {
            u: HeldWords::from_words(u.words()),
            v: HeldWords::from_words(v.words()),
            mask: HeldWords::from_field(words, 2, n),
            of: PhantomData,
        };
        miner.u.add_field::<R>(words, 0);
        miner.v.add_field::<R>(words, 1);
        (miner, Msg::from_words(words))
    }

    /// Takes the previous miner's 3n masks. The message, both masked factors, is for the next miner. A message of a
    /// wrong length is refused.
    #[inline(never)]
    pub fn got(mut self, msg: &Msg) -> Result<(Mul<R, P, Crossed>, Msg), Refused<Self>>
        ensures taken { IsOk result ↔ (length msg.now ≡ 3 * length self.mask) }
        ensures ok { IfOk result (λ x. Crosses R.ring self msg.now x.0 x.1) }
        ensures err { IfErr result (WrongLength self (3 * length self.mask) (length msg.now)) }
    {
        let n = self.mask.len();
        if msg.len() != 3 * n {
            return Err(Refused::wrong_length(self, 3 * n, msg.len()));
        }
        let words = msg.words();
        self.u.take_field::<R>(words, 0);
        self.v.take_field::<R>(words, 1);
        self.mask.take_field::<R>(words, 2);
        let mut to_next = Msg::from_words(self.u.words());
        to_next.append_words(self.v.words());
        Ok((
            Mul {
                u: self.u,
                v: self.v,
                mask: self.mask,
                of: PhantomData,
            },
            to_next,
        ))
    }
}

impl<R: LaneRing, P: Party> Mul<R, P, Crossed> {
    /// Takes the previous miner's two masked factors, and answers the party's share of the product. A message of a
    /// wrong length is refused.
    #[inline(never)]
    pub fn got(mut self, msg: &Msg) -> Result<Block<R, P>, Refused<Self>>
        ensures taken { IsOk result ↔ (length msg.now ≡ 2 * length self.mask) }
        ensures ok { IfOk result (λ share. Multiplied R.ring self msg.now share) }
        ensures err { IfErr result (WrongLength self (2 * length self.mask) (length msg.now)) }
    {
        let n = self.mask.len();
        if msg.len() != 2 * n {
            return Err(Refused::wrong_length(self, 2 * n, msg.len()));
        }
        self.mask.add_products::<R>(&self.u, &self.v, msg.words());
        Ok(Block::from_words(self.mask.words()))
    }
}
