ghost use Rattle.std.specs.Prelude.{◌≡◌, ◌≤◌, [], ◌∷◌, ◌++◌, length, OnOk};

use proto_core::{Messages, Msg};
use std::alloc::{AllocError, Global};

/// The messages that come to a miner, from its previous one and from its next one, each oldest first.
#[derive(Drop)]
pub struct Mails {
    pub previous: Messages,
    pub next: Messages,
}

impl Mails {
    /// No messages.
    pub fn new(alloc: Global) -> Self
        ensures previous { result.previous ≡ [] }
        ensures next { result.next ≡ [] }
    {
        Mails {
            previous: Messages::new(alloc),
            next: Messages::new(alloc),
        }
    }

    /// One message more from the previous miner.
    pub(crate) fn push_previous(&mut self, words: &[u64]) -> Result<(), AllocError>
        requires { length words.now ≤ 2048 }
        ensures previous { OnOk result (self.new.previous ≡ self.old.previous ++ words.now ∷ []) }
        ensures next { OnOk result (self.new.next ≡ self.old.next) }
    {
        self.previous.push(&Msg::from_words(words))
    }

    /// One message more from the next miner.
    pub(crate) fn push_next(&mut self, words: &[u64]) -> Result<(), AllocError>
        requires { length words.now ≤ 2048 }
        ensures previous { OnOk result (self.new.previous ≡ self.old.previous) }
        ensures next { OnOk result (self.new.next ≡ self.old.next ++ words.now ∷ []) }
    {
        self.next.push(&Msg::from_words(words))
    }
}
