ghost use Rattle.std.specs.Prelude.{◌≡◌, ◌+◌, ◌<◌, ◌≤◌, ◌↔◌, ℕ, List, [], ◌∷◌, ◌++◌, length, IsTrue, OnOk, OnErr, slice_get, option_map, IfSome};
ghost use Rattle.proto_core.specs.MessageLists.{start_of};

use crate::msg::Msg;
use std::alloc::{AllocError, Global};
use std::marker::Model;

/// A list of messages. All their words lie one after another, beside the place at which each message ends.
#[derive(Drop)]
pub struct Messages {
    words: Vec<u64>,
    ends: Vec<usize>,
}

impl Model for Messages {
    ghost use Rattle.std.specs.Prelude.{ℕ, List};
    ghost use Rattle.proto_core.specs.MessageLists.{messages_of, AreEnds};

    ghost Value = { List (List ℕ) };

    ghost view = { λ m. messages_of m.ends.items m.words.items };

    ghost invariant = { λ m. AreEnds m.ends.items m.words.items };
}

impl Messages {
    /// No messages.
    #[tactic(auto, using(crate::proofs::MessageListsLemmas::messages_of_none))]
    pub fn new(alloc: Global) -> Self
        ensures { result ≡ [] }
    {
        Messages {
            words: Vec::new(alloc),
            ends: Vec::new(alloc),
        }
    }

    /// One message more at the end; with no memory left the list is as before.
    pub fn push(&mut self, msg: &Msg) -> Result<(), AllocError>
        ensures ok { OnOk result (self.new ≡ self.old ++ msg.now ∷ []) }
        ensures err { OnErr result (self.new ≡ self.old) }
    {
        self.push_words(msg.words())
    }

    /// A message of these words more at the end; with no memory left the list is as before.
    #[tactic(auto, using(crate::proofs::MessageListsLemmas::pushed))]
    pub fn push_words(&mut self, words: &[u64]) -> Result<(), AllocError>
        requires { length words.now ≤ 2048 }
        ensures ok { OnOk result (self.new ≡ self.old ++ words.now ∷ []) }
        ensures err { OnErr result (self.new ≡ self.old) }
    {
        let before = self.words.len();
        self.words.extend_from_slice(words)?;
        match self.ends.push(self.words.len()) {
            Ok(()) => Ok(()),
            Err(refused) => {
                self.words.truncate(before);
                Err(refused.into())
            }
        }
    }

    /// A message of these words, and those after them, more at the end; with no memory left the list is as before.
    #[tactic(auto, using(crate::proofs::MessageListsLemmas::pushed))]
    pub fn push_two(&mut self, first: &[u64], second: &[u64]) -> Result<(), AllocError>
        requires { length first.now + length second.now ≤ 2048 }
        ensures ok { OnOk result (self.new ≡ self.old ++ (first.now ++ second.now) ∷ []) }
        ensures err { OnErr result (self.new ≡ self.old) }
    {
        let before = self.words.len();
        self.words.extend_from_slice(first)?;
        let Ok(()) = self.words.extend_from_slice(second) else {
            self.words.truncate(before);
            return Err(AllocError);
        };
        match self.ends.push(self.words.len()) {
            Ok(()) => Ok(()),
            Err(refused) => {
                self.words.truncate(before);
                Err(refused.into())
            }
        }
    }

    /// Lets go all messages. The room that they took is kept for others.
    #[tactic(auto, using(crate::proofs::MessageListsLemmas::messages_of_none))]
    pub fn clear(&mut self)
        ensures { self.new ≡ [] }
    {
        self.words.clear();
        self.ends.clear();
    }

    /// How many messages.
    #[tactic(auto, using(crate::proofs::MessageListsLemmas::counted))]
    pub fn len(&self) -> usize
        ensures { result ≡ length self.now }
    {
        self.ends.len()
    }

    /// Whether there is no message.
    #[tactic(auto, using(crate::proofs::MessageListsLemmas::counted))]
    pub fn is_empty(&self) -> bool
        ensures { IsTrue result ↔ (self.now ≡ []) }
    {
        self.len() == 0
    }

    /// The message of a number, from 0; `None` past the end.
    pub fn get(&self, at: usize) -> Option<Msg>
        ensures { result ≡ slice_get self.now at }
    {
        Some(Msg::from_words(self.lent(at)?))
    }

    /// The words of the message of a number, from 0, where they lie; `None` past the end.
    #[tactic(auto, using(crate::proofs::MessageListsLemmas::found))]
    pub fn lent(&self, at: usize) -> Option<&[u64]>
        ensures found { option_map (λ words. words.now) result ≡ slice_get self.now at }
        ensures short { IfSome result (λ words. length words.now ≤ 2048) }
    {
        let ends = self.ends.as_slice();
        let words = self.words.as_slice();
        if at >= ends.len() {
            return None;
        }
        Some(&words[start(ends, at)..ends[at]])
    }
}

/// Where a message begins.
fn start(ends: &[usize], at: usize) -> usize
    requires { at < length ends.now }
    ensures { result ≡ start_of ends.now at }
{
    if at == 0 { 0 } else { ends[at - 1] }
}
