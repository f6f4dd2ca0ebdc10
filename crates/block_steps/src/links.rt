ghost use Rattle.std.specs.Prelude.{◌≡◌, ◌≤◌, List, [], ◌∷◌, ◌++◌, length, drop, OnOk, OnErr, IfOk};
ghost use Rattle.block_steps.specs.Inboxes.{LetsGo};
ghost use Rattle.block_steps.specs.Outcomes.{came_from_previous, came_from_next};

use crate::inbox::Inbox;
use proto_core::{Messages, Msg};
use std::alloc::{AllocError, Global};

/// What came on a miner's two links, what it has sent on the two others, and the words that it has opened.
#[derive(Drop)]
pub struct Links {
    pub(crate) from_previous: Inbox,
    pub(crate) from_next: Inbox,
    pub(crate) to_next: Messages,
    pub(crate) to_previous: Messages,
    pub(crate) opened: Vec<u64>,
}

/// The messages from a number on.
fn later(alloc: Global, messages: &Messages, from: usize) -> Result<Messages, AllocError>
    ensures { IfOk result (λ left. left ≡ drop from messages.now) }
{
    let mut left = Messages::new(alloc);
    for at in from..messages.len() {
        if let Some(words) = messages.lent(at) {
            left.push_words(words)?;
        }
    }
    Ok(left)
}

impl Links {
    /// Nothing came, nothing was sent, and nothing opened.
    pub fn new(alloc: Global) -> Self
        ensures from_previous { result.from_previous ≡ ([], []) }
        ensures from_next { result.from_next ≡ ([], []) }
        ensures to_next { result.to_next ≡ [] }
        ensures to_previous { result.to_previous ≡ [] }
        ensures opened { result.opened.items ≡ [] }
    {
        Links {
            from_previous: Inbox::new(alloc),
            from_next: Inbox::new(alloc),
            to_next: Messages::new(alloc),
            to_previous: Messages::new(alloc),
            opened: Vec::new(alloc),
        }
    }

    /// Where more memory comes from.
    pub(crate) fn alloc(&self) -> Global {
        *self.opened.allocator()
    }

    /// A message comes from the previous miner; with no memory left all is as before.
    pub fn receive_from_previous(&mut self, msg: &Msg) -> Result<(), AllocError>
        ensures ok { OnOk result (self.new ≡ came_from_previous self.old msg.now) }
        ensures err { OnErr result (self.new ≡ self.old) }
    {
        self.from_previous.push(msg)
    }

    /// A message comes from the next miner; with no memory left all is as before.
    pub fn receive_from_next(&mut self, msg: &Msg) -> Result<(), AllocError>
        ensures ok { OnOk result (self.new ≡ came_from_next self.old msg.now) }
        ensures err { OnErr result (self.new ≡ self.old) }
    {
        self.from_next.push(msg)
    }

    /// A message of these words comes from the previous miner; with no memory left all is as before.
    pub fn receive_words_from_previous(&mut self, words: &[u64]) -> Result<(), AllocError>
        requires { length words.now ≤ 2048 }
        ensures ok { OnOk result (self.new ≡ came_from_previous self.old words.now) }
        ensures err { OnErr result (self.new ≡ self.old) }
    {
        self.from_previous.push_words(words)
    }

    /// A message of these words comes from the next miner; with no memory left all is as before.
    pub fn receive_words_from_next(&mut self, words: &[u64]) -> Result<(), AllocError>
        requires { length words.now ≤ 2048 }
        ensures ok { OnOk result (self.new ≡ came_from_next self.old words.now) }
        ensures err { OnErr result (self.new ≡ self.old) }
    {
        self.from_next.push_words(words)
    }

    /// The messages that went to the next miner, oldest first.
    pub fn to_next(&self) -> &Messages
        ensures { result.now ≡ self.now.to_next }
    {
        &self.to_next
    }

    /// The messages that went to the previous miner, oldest first.
    pub fn to_previous(&self) -> &Messages
        ensures { result.now ≡ self.now.to_previous }
    {
        &self.to_previous
    }

    /// The words that were opened, one block after another.
    pub fn opened(&self) -> &[u64]
        ensures { result.now ≡ self.now.opened.items }
    {
        &self.opened
    }
    /// Lets go the messages that came, of each link on which all were taken.
    pub fn let_go_taken(&mut self)
        ensures previous { LetsGo self.old.from_previous self.new.from_previous }
        ensures next { LetsGo self.old.from_next self.new.from_next }
        ensures previous_left { self.new.from_previous.1 ≡ self.old.from_previous.1 }
        ensures next_left { self.new.from_next.1 ≡ self.old.from_next.1 }
        ensures same { self.new ≡ record self.old { from_previous = self.new.from_previous; from_next = self.new.from_next } }
    {
        self.from_previous.let_go();
        self.from_next.let_go();
    }

    /// Lets go the messages that went to the next miner.
    pub fn let_go_sent_to_next(&mut self)
        ensures { self.new ≡ record self.old { to_next = [] } }
    {
        self.to_next.clear();
    }

    /// Lets go the messages that went to the previous miner.
    pub fn let_go_sent_to_previous(&mut self)
        ensures { self.new ≡ record self.old { to_previous = [] } }
    {
        self.to_previous.clear();
    }

    /// Lets go the first messages that went to the next miner, so many of them; with no memory left all is as before.
    pub fn let_go_first_to_next(&mut self, count: usize) -> Result<(), AllocError>
        ensures ok { OnOk result (self.new ≡ record self.old { to_next = drop count self.old.to_next }) }
        ensures err { OnErr result (self.new ≡ self.old) }
    {
        self.to_next = later(self.alloc(), &self.to_next, count)?;
        Ok(())
    }

    /// Lets go the first messages that went to the previous miner, so many of them; with no memory left all is as before.
    pub fn let_go_first_to_previous(&mut self, count: usize) -> Result<(), AllocError>
        ensures ok { OnOk result (self.new ≡ record self.old { to_previous = drop count self.old.to_previous }) }
        ensures err { OnErr result (self.new ≡ self.old) }
    {
        self.to_previous = later(self.alloc(), &self.to_previous, count)?;
        Ok(())
    }
}
