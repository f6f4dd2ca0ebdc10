ghost use Rattle.std.specs.Prelude.{◌≡◌, ◌+◌, ◌<◌, ◌≤◌, ◌↔◌, ℕ, List, [], ◌∷◌, ◌++◌, length, take, slice_index, slice_set, slice_get, IsTrue, MatchResult};

use crate::share::Share;
use std::marker::{Model, PhantomData};

/// How many words a block can have.
const CAPACITY: usize = 512;

/// The block has 512 words already.
#[derive(Debug, Drop)]
pub struct Full;

/// At most 512 words of one party in a ring, kept in place: its shares of a block of elements, or words that mask them.
#[derive(Drop)]
pub struct Block<R, P> {
    words: [u64; CAPACITY],
    len: usize,
    of: PhantomData<(R, P)>,
}

impl<R, P> Model for Block<R, P> {
    ghost Value = { List ℕ };

    ghost view = { λ b. take b.len b.words };

    ghost invariant = { λ b. b.len ≤ 512 };
}

impl<R, P> Block<R, P> {
    /// No words.
    pub fn new() -> Self
        ensures { result ≡ [] }
    {
        Block {
            words: [0; CAPACITY],
            len: 0,
            of: PhantomData,
        }
    }

    /// The block of these words.
    pub fn from_words(words: &[u64]) -> Self
        requires { length words.now ≤ 512 }
        ensures { result ≡ words.now }
    {
        let mut block = Block::new();
        block.append_words(words);
        block
    }

    /// How many words.
    pub fn len(&self) -> usize
        ensures len { result ≡ length self.now }
        ensures bound { result ≤ 512 }
    {
        self.len
    }

    /// Whether there is no word.
    pub fn is_empty(&self) -> bool
        ensures { IsTrue result ↔ (self.now ≡ []) }
    {
        self.len() == 0
    }

    /// One word more at the end. A block of 512 words is full, and stays as it was.
    pub fn push(&mut self, word: u64) -> Result<(), Full>
        ensures { MatchResult result (λ _. (length self.old < 512) × (self.new ≡ self.old ++ word ∷ []))
            (λ _. (length self.old ≡ 512) × (self.new ≡ self.old)) }
    {
        if self.len() < CAPACITY {
            self.append(word);
            Ok(())
        } else {
            Err(Full)
        }
    }

    /// One word more at the end of a block that is not full.
    pub fn append(&mut self, word: u64)
        requires { length self.old < 512 }
        ensures { self.new ≡ self.old ++ word ∷ [] }
    {
        self.words[self.len] = word;
        self.len += 1;
    }

    /// These words after what is there.
    pub fn append_words(&mut self, words: &[u64])
        requires { length self.old + length words.now ≤ 512 }
        ensures { self.new ≡ self.old ++ words.now }
    {
        let end = self.len + words.len();
        self.words[self.len..end].copy_from_slice(words);
        self.len = end;
    }

    /// A block of the same words.
    pub fn copy(&self) -> Self
        ensures same { result ≡ self.now }
        ensures bound { length self.now ≤ 512 }
    {
        Block {
            words: self.words,
            len: self.len,
            of: PhantomData,
        }
    }

    /// The words in order.
    pub fn words(&self) -> &[u64]
        ensures words { result.now ≡ self.now }
        ensures bound { length self.now ≤ 512 }
    {
        &self.words[..self.len]
    }

    /// The word at an index.
    pub fn word(&self, at: usize) -> u64
        requires { at < length self.now }
        ensures { result ≡ slice_index self.now at }
    {
        let words = &self.words[..self.len];
        words[at]
    }

    /// Puts a word in the place of the one at an index.
    pub fn set_word(&mut self, at: usize, word: u64)
        requires { at < length self.old }
        ensures { self.new ≡ slice_set self.old at word }
    {
        let words = &mut self.words[..self.len];
        words[at] = word;
    }

    /// The share at an index; `None` past the end.
    pub fn get(&self, at: usize) -> Option<Share<R, P>>
        ensures { result ≡ slice_get self.now at }
    {
        if at < self.len() {
            Some(Share::new(self.word(at)))
        } else {
            None
        }
    }
}
