ghost use Rattle.std.specs.Prelude.{◌≡◌, ℕ};

use crate::ring::ShareRing;
use std::marker::{Model, PhantomData};

/// One party's share of a value in a ring.
///
/// Shares have no equality and no printed form, and there is no sum of shares of two rings or of two parties.
#[derive(Drop)]
pub struct Share<R, P> {
    word: u64,
    of: PhantomData<(R, P)>,
}

impl<R, P> Model for Share<R, P> {
    ghost Value = { ℕ };

    ghost view = { λ s. s.word };
}

impl<R, P> Share<R, P> {
    /// The share that is this word.
    pub fn new(word: u64) -> Self
        ensures { result ≡ word }
    {
        Share {
            word,
            of: PhantomData,
        }
    }

    /// The share's word.
    pub fn word(&self) -> u64
        ensures { result ≡ self.now }
    {
        self.word
    }
}

impl<R: ShareRing, P> Share<R, P> {
    /// The party's share of the sum.
    pub fn add(&self, other: &Self) -> Self
        ensures { result ≡ R.ring.add self.now other.now }
    {
        Share::new(R::add(self.word(), other.word()))
    }

    /// The party's share of the difference.
    pub fn sub(&self, other: &Self) -> Self
        ensures { result ≡ R.ring.sub self.now other.now }
    {
        Share::new(R::sub(self.word(), other.word()))
    }

    /// The party's share of the product by a word that all know.
    pub fn mul_public(&self, factor: u64) -> Self
        ensures { result ≡ R.ring.mul self.now factor }
    {
        Share::new(R::mul(self.word(), factor))
    }
}
