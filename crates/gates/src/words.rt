// The public words inside a gate.
ghost use Rattle.std.specs.Prelude.{◌≡◌, ℕ, List, IfOk};

use std::alloc::{AllocError, Global};
use std::marker::Model;

/// A list of words that everybody knows, inside a gate. Clauses see the list.
#[derive(Drop, Debug)]
pub struct Words {
    words: Vec<u64>,
}

impl Model for Words {
    ghost Value = { List ℕ };

    ghost view = { λ w. w.words.items };
}

impl Words {
    /// The words of a vector.
    pub fn new(words: Vec<u64>) -> Self
        ensures { result ≡ words.items }
    {
        Words { words }
    }

    /// The words, in order.
    pub fn as_slice(&self) -> &[u64]
        ensures { result.now ≡ self.now }
    {
        &self.words
    }

    /// The vector of the words. No memory is taken.
    pub fn into_vec(self) -> Vec<u64>
        ensures { result.items ≡ self }
    {
        self.words
    }

    /// The same words again.
    pub fn copy(&self, alloc: Global) -> Result<Words, AllocError>
        ensures { IfOk result (λ words. words ≡ self.now) }
    {
        let mut words = Vec::new(alloc);
        words.extend_from_slice(&self.words)?;
        Ok(Words { words })
    }
}
