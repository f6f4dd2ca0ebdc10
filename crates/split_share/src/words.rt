ghost use Rattle.std.specs.Prelude.{◌≡◌, ◌≤◌, ◌++◌, ◌∷◌, [], false, length, IfOk, OnOk};
ghost use Rattle.proto_core.specs.Rings.{add_ring, xor_ring};
ghost use Rattle.proto_core.specs.Elementwise.{minus, zeros};
ghost use Rattle.split_share.specs.SplitStrand.{signed_sum, held_of};

use crate::kernels::{add_signed, take_words, zero_words};
use proto_core::Messages;
use std::alloc::{AllocError, Global};
use std::marker::Model;

/// The second or the third miner's part in splitting a block of numbers: what [`Split`](crate::Split) is, its words in a
/// vector.
///
/// A step takes a message of the right length where it lies. The two vectors that a miner has at the end are its shares of
/// the first words and of the second.
#[derive(Drop)]
pub struct SplitWords {
    share: Vec<u64>,
    negated: bool,
}

impl Model for SplitWords {
    ghost use Rattle.std.specs.Prelude.{◌≤◌, length};
    ghost use Rattle.split_share.specs.SplitStrand.{Held};

    ghost Value = { Held };

    ghost view = { λ s. record { share = s.share.items; negated = s.negated } };

    ghost invariant = { λ s. length s.share.items ≤ 512 };
}

impl SplitWords {
    /// Splits the first miner's shares with as many drawn words, sends the parts to the second and the third miner, and
    /// answers the first miner's shares of both words, which are zeros, negated or not. With no memory left a part of it
    /// may be sent.
    pub fn deal(
        alloc: Global,
        u: &[u64],
        words: &[u64],
        second: &mut Messages,
        third: &mut Messages,
    ) -> Result<(Vec<u64>, Vec<u64>), AllocError>
        requires short { length u.now ≤ 512 }
        requires drawn { length words.now ≡ length u.now }
        ensures to_two { OnOk result (second.new ≡ second.old ++ words.now ∷ []) }
        ensures to_three { OnOk result (third.new ≡ third.old ++ minus add_ring (length u.now) u.now words.now ∷ []) }
        ensures first { IfOk result (λ x. x.0.items ≡ zeros xor_ring (length u.now)) }
        ensures second { IfOk result (λ x. x.1.items ≡ zeros xor_ring (length u.now)) }
    {
        let n = u.len();
        let mut rest = Vec::from_slice(alloc, u)?;
        take_words(&mut rest, words);
        second.push_words(words)?;
        third.push_words(&rest)?;
        Ok((zero_words(alloc, n)?, zero_words(alloc, n)?))
    }

    /// Begins to split the second or the third miner's shares.
    pub fn begin(alloc: Global, u: &[u64], negated: bool) -> Result<SplitWords, AllocError>
        requires { length u.now ≤ 512 }
        ensures { IfOk result (λ s. s ≡ held_of u.now negated) }
    {
        Ok(SplitWords {
            share: Vec::from_slice(alloc, u)?,
            negated,
        })
    }

    /// How many numbers are split.
    pub fn size(&self) -> usize
        ensures size { result ≡ length self.now.share }
        ensures bound { result ≤ 512 }
    {
        self.share.len()
    }

    /// Takes the first miner's words, and answers the second miner's shares: the whole first words, and zeros.
    pub fn got12(mut self, alloc: Global, got: &[u64]) -> Result<(Vec<u64>, Vec<u64>), AllocError>
        requires { length got.now ≡ length self.share }
        ensures first { IfOk result (λ x. x.0.items ≡ signed_sum false (length self.share) self.share got.now) }
        ensures second { IfOk result (λ x. x.1.items ≡ zeros xor_ring (length self.share)) }
    {
        let zeros = zero_words(alloc, self.share.len())?;
        add_signed(&mut self.share, got, false);
        Ok((self.share, zeros))
    }

    /// Takes the first miner's words, and answers the third miner's shares: zeros, and the whole second words.
    pub fn got13(mut self, alloc: Global, got: &[u64]) -> Result<(Vec<u64>, Vec<u64>), AllocError>
        requires { length got.now ≡ length self.share }
        ensures first { IfOk result (λ x. x.0.items ≡ zeros xor_ring (length self.share)) }
        ensures second { IfOk result (λ x. x.1.items ≡ signed_sum self.negated (length self.share) self.share got.now) }
    {
        let zeros = zero_words(alloc, self.share.len())?;
        add_signed(&mut self.share, got, self.negated);
        Ok((zeros, self.share))
    }
}
