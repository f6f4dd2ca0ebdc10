// The elements of arrays.
ghost use Rattle.std.specs.Prelude.{◌≡◌, ℕ, List, Bool, IfOk};

use std::alloc::{AllocError, Global};
use std::marker::Model;

/// The numbers of an array. Clauses see their list.
#[derive(Drop)]
pub struct Words {
    words: Vec<u64>,
}

impl Model for Words {
    ghost Value = { List ℕ };

    ghost view = { λ w. w.words.items };
}

impl Words {
    /// The numbers of a vector.
    pub fn new(words: Vec<u64>) -> Self
        ensures { result ≡ words.items }
    {
        Words { words }
    }

    /// The numbers, in order.
    pub fn as_slice(&self) -> &[u64]
        ensures { result.now ≡ self.now }
    {
        &self.words
    }

    /// The same numbers in memory of their own.
    pub fn copy(&self, alloc: Global) -> Result<Words, AllocError>
        ensures { IfOk result (λ copy. copy ≡ self.now) }
    {
        let words = Vec::from_slice(alloc, &self.words)?;
        Ok(Words { words })
    }
}

/// The truth values of an array. Clauses see their list.
#[derive(Drop)]
pub struct Bits {
    bits: Vec<bool>,
}

impl Model for Bits {
    ghost Value = { List Bool };

    ghost view = { λ b. b.bits.items };
}

impl Bits {
    /// The truth values of a vector.
    pub fn new(bits: Vec<bool>) -> Self
        ensures { result ≡ bits.items }
    {
        Bits { bits }
    }

    /// The truth values, in order.
    pub fn as_slice(&self) -> &[bool]
        ensures { result.now ≡ self.now }
    {
        &self.bits
    }

    /// The same truth values in memory of their own.
    pub fn copy(&self, alloc: Global) -> Result<Bits, AllocError>
        ensures { IfOk result (λ copy. copy ≡ self.now) }
    {
        let bits = Vec::from_slice(alloc, &self.bits)?;
        Ok(Bits { bits })
    }
}
