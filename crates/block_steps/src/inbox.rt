ghost use Rattle.std.specs.Prelude.{◌≡◌, ◌≤◌, List, [], ◌∷◌, ◌++◌, length, drop, OnOk, OnErr, option_map};
ghost use Rattle.proto_core.specs.Strand.{rest_of};
ghost use Rattle.block_steps.specs.Inboxes.{FrontIs, LetsGo};

use proto_core::{Messages, Msg};
use std::alloc::{AllocError, Global};
use std::marker::Model;

/// The messages that came on a link, oldest first, and how many of them were taken.
///
/// Contracts see all messages, and beside them those that were not taken.
#[derive(Drop)]
pub struct Inbox {
    messages: Messages,
    taken: usize,
}

impl Model for Inbox {
    ghost use Rattle.std.specs.Prelude.{◌≡◌, ◌≤◌, ℕ, List, length, drop};

    ghost Value = { List (List ℕ) × List (List ℕ) };

    ghost view = { λ b. (b.messages, drop b.taken b.messages) };

    ghost invariant = { λ b. b.taken ≤ length b.messages };
}

impl Inbox {
    /// No message came.
    pub fn new(alloc: Global) -> Self
        ensures { result ≡ ([], []) }
    {
        Inbox {
            messages: Messages::new(alloc),
            taken: 0,
        }
    }

    /// A message comes; with no memory left the inbox is as before.
    #[tactic(auto, using(crate::proofs::Inboxes::inbox_steps))]
    pub fn push(&mut self, msg: &Msg) -> Result<(), AllocError>
        ensures ok { OnOk result ((self.new.0 ≡ self.old.0 ++ msg.now ∷ []) × (self.new.1 ≡ self.old.1 ++ msg.now ∷ [])) }
        ensures err { OnErr result (self.new ≡ self.old) }
    {
        self.messages.push(msg)
    }

    /// A message of these words comes; with no memory left the inbox is as before.
    #[tactic(auto, using(crate::proofs::Inboxes::inbox_steps))]
    pub fn push_words(&mut self, words: &[u64]) -> Result<(), AllocError>
        requires { length words.now ≤ 2048 }
        ensures ok { OnOk result ((self.new.0 ≡ self.old.0 ++ words.now ∷ []) × (self.new.1 ≡ self.old.1 ++ words.now ∷ [])) }
        ensures err { OnErr result (self.new ≡ self.old) }
    {
        self.messages.push_words(words)
    }

    /// The words of the oldest message that was not taken, where they lie; `None` where all were.
    #[tactic(auto, using(crate::proofs::Inboxes::inbox_steps))]
    pub fn lent(&self) -> Option<&[u64]>
        ensures { FrontIs (option_map (λ words. words.now) result) self.now.1 }
    {
        self.messages.lent(self.taken)
    }

    /// Takes the oldest message that was not taken, if there is one.
    #[tactic(auto, using(crate::proofs::Inboxes::inbox_steps))]
    pub fn take(&mut self)
        ensures all { self.new.0 ≡ self.old.0 }
        ensures left { self.new.1 ≡ rest_of self.old.1 }
    {
        if self.taken < self.messages.len() {
            self.taken += 1;
        }
    }
    /// Lets go all messages, if all were taken; else it is as before. The room that they took is kept.
    #[tactic(auto, using(crate::proofs::Inboxes::letting_go))]
    pub fn let_go(&mut self)
        ensures lets_go { LetsGo self.old self.new }
        ensures left { self.new.1 ≡ self.old.1 }
    {
        if self.taken == self.messages.len() {
            self.messages.clear();
            self.taken = 0;
        }
    }
}
