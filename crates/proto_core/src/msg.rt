ghost use Rattle.std.specs.Prelude.{◌≡◌, ◌+◌, ◌*◌, ◌<◌, ◌≤◌, ◌↔◌, ℕ, List, [], ◌∷◌, ◌++◌, length, take, slice_index, IsTrue, OnOk, IfErr};
ghost use Rattle.proto_core.specs.Lists.{part};
ghost use Rattle.proto_core.specs.Refusals.{AreBits, WrongBit};

use crate::block::Block;
use crate::refused::BadMessage;
use std::marker::Model;

/// How many words a message can have.
const CAPACITY: usize = 2048;

/// A message between two miners: at most 2,048 words, kept in place.
#[derive(Drop)]
pub struct Msg {
    words: [u64; CAPACITY],
    len: usize,
}

impl Model for Msg {
    ghost Value = { List ℕ };

    ghost view = { λ m. take m.len m.words };

    ghost invariant = { λ m. m.len ≤ 2048 };
}

impl Msg {
    /// No words.
    pub fn new() -> Self
        ensures { result ≡ [] }
    {
        Msg {
            words: [0; CAPACITY],
            len: 0,
        }
    }

    /// The message of these words.
    pub fn from_words(words: &[u64]) -> Self
        requires { length words.now ≤ 2048 }
        ensures { result ≡ words.now }
    {
        let mut msg = Msg::new();
        msg.append_words(words);
        msg
    }

    /// The message of a block's words.
    pub fn from_block<R, P>(block: &Block<R, P>) -> Self
        ensures { result ≡ block.now }
    {
        Msg::from_words(block.words())
    }

    /// How many words.
    pub fn len(&self) -> usize
        ensures len { result ≡ length self.now }
        ensures bound { result ≤ 2048 }
    {
        self.len
    }

    /// Whether there is no word.
    pub fn is_empty(&self) -> bool
        ensures { IsTrue result ↔ (self.now ≡ []) }
    {
        self.len() == 0
    }

    /// One word more at the end.
    pub fn push(&mut self, word: u64)
        requires { length self.old < 2048 }
        ensures { self.new ≡ self.old ++ word ∷ [] }
    {
        self.words[self.len] = word;
        self.len += 1;
    }

    /// These words after what is there.
    pub fn append_words(&mut self, words: &[u64])
        requires { length self.old + length words.now ≤ 2048 }
        ensures { self.new ≡ self.old ++ words.now }
    {
        let end = self.len + words.len();
        self.words[self.len..end].copy_from_slice(words);
        self.len = end;
    }

    /// The words of a block after what is there.
    pub fn append_block<R, P>(&mut self, block: &Block<R, P>)
        requires { length self.old + length block.now ≤ 2048 }
        ensures { self.new ≡ self.old ++ block.now }
    {
        self.append_words(block.words());
    }

    /// Field `number`, from 0, where each field of the message has `n` words.
    pub fn field<R, P>(&self, number: usize, n: usize) -> Block<R, P>
        requires few { n ≤ 512 }
        requires within { number * n + n ≤ length self.now }
        ensures { result ≡ part n number self.now }
    {
        let words = self.words();
        let from = number * n;
        Block::from_words(&words[from..from + n])
    }

    /// A message of the same words.
    pub fn copy(&self) -> Self
        ensures { result ≡ self.now }
    {
        Msg {
            words: self.words,
            len: self.len,
        }
    }

    /// The words in order.
    pub fn words(&self) -> &[u64]
        ensures words { result.now ≡ self.now }
        ensures bound { length self.now ≤ 2048 }
    {
        &self.words[..self.len]
    }

    /// The word at an index.
    pub fn word(&self, at: usize) -> u64
        requires { at < length self.now }
        ensures { result ≡ slice_index self.now at }
    {
        let words = &self.words[..self.len];
        words[at]
    }
}

/// Whether `n` words of the message, from number `from` on, are bits; else the first that is none.
pub fn check_bits(msg: &Msg, from: usize, n: usize) -> Result<(), BadMessage>
    requires { from + n ≤ length msg.now }
    ensures ok { OnOk result (AreBits msg.now from n) }
    ensures err { IfErr result (WrongBit msg.now from n) }
{
    let words = msg.words();
    for at in 0..n {
        let word = words[from + at];
        if word > 1 {
            return Err(BadMessage::NotABit {
                place: (from + at) as u64,
                word,
            });
        }
    }
    Ok(())
}
