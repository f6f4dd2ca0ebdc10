ghost use Rattle.std.specs.Prelude.{◌≡◌, ◌≤◌, length, drop};
ghost use Rattle.proto_core.specs.declared.link.Link.{Link as LinkValue};
ghost use Rattle.proto_core.specs.Strand.{rest_of, taken};
ghost use Rattle.program_views.specs.Coming.{mail_in, first_of, brought};

use proto_core::{Link, Messages, Msg, Number};
use std::marker::Model;

/// Messages of a link, oldest first, and how many of them have come. Contracts see those that have not.
#[derive(Drop)]
struct Queue<'a> {
    messages: &'a Messages,
    come: usize,
}

impl<'a> Model for Queue<'a> {
    ghost use Rattle.std.specs.Prelude.{◌≤◌, ℕ, List, length, drop};

    ghost Value = { List (List ℕ) };

    ghost view = { λ q. drop q.come q.messages.now };

    ghost invariant = { λ q. q.come ≤ length q.messages.now };
}

impl<'a> Queue<'a> {
    /// None has come.
    fn new(messages: &'a Messages) -> Self
        ensures { result ≡ messages.now }
    {
        Queue { messages, come: 0 }
    }

    /// The oldest one comes, if there is one.
    #[tactic(auto, using(crate::proofs::Entries::queue_steps))]
    fn take(&mut self) -> Option<Msg>
        ensures first { result ≡ first_of self.old }
        ensures rest { self.new ≡ rest_of self.old }
    {
        if self.come >= self.messages.len() {
            return None;
        }
        let oldest = self.messages.get(self.come);
        self.come += 1;
        oldest
    }
}

/// The messages that are still to come to a miner, on its two links.
#[derive(Drop)]
pub(crate) struct Coming<'a> {
    miner: Number,
    previous: Queue<'a>,
    next: Queue<'a>,
}

impl<'a> Model for Coming<'a> {
    ghost use Rattle.program_views.specs.Coming.{ToCome};

    ghost Value = { ToCome };

    ghost view = { λ c. record { miner = c.miner; previous = c.previous; next = c.next } };
}

impl<'a> Coming<'a> {
    /// All of these.
    pub fn new(miner: Number, previous: &'a Messages, next: &'a Messages) -> Self
        ensures { result ≡ record { miner = miner; previous = previous.now; next = next.now } }
    {
        Coming {
            miner,
            previous: Queue::new(previous),
            next: Queue::new(next),
        }
    }

    /// One entry of a schedule: the message that it brings the miner, if it brings one.
    pub fn enter(&mut self, link: Link) -> Option<Msg>
        ensures brought { result ≡ brought self.old link }
        ensures left { (l : LinkValue) → mail_in self.new l ≡ taken link (mail_in self.old) l }
        ensures miner { self.new.miner ≡ self.old.miner }
    {
        if link == self.miner.previous().link_to_next() {
            self.previous.take()
        } else if link == self.miner.next().link_to_previous() {
            self.next.take()
        } else {
            None
        }
    }
}
