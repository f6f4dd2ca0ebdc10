// Where a miner stands in its script.
ghost use Rattle.std.specs.Prelude.{◌≡◌, ◌<◌, ◌≤◌, ◌-◌, ◌^◌};
ghost use Rattle.proto_core.specs.declared.link.Link.{Link};
ghost use Rattle.protocol_model.specs.Network.{Counts, none_delivered, one_more};
ghost use Rattle.counted_net.specs.Cursors.{sent_in, unread_in, HasMoved, HasTaken, InPlace, IsBehind, IsSettled, Steps};

use crate::moves::Move;
use crate::tally::Tally;
use proto_core::Link;

/// Where a miner stands in its script: how many moves it has done, what it has sent, what has come to it and isn't taken, and the link
/// for whose next message it waits.
#[derive(Drop)]
pub(crate) struct Cursor {
    place: usize,
    pub sent: Tally,
    unread: Tally,
    pub waits: Option<Link>,
}

impl Cursor {
    /// Where it stands when nothing has come.
    pub fn new(script: &[Move]) -> Cursor
        ensures { IsSettled script.now none_delivered result }
    {
        let mut cursor = Cursor {
            place: 0,
            sent: Tally::new(),
            unread: Tally::new(),
            waits: None,
        };
        cursor.go_on(script);
        cursor
    }

    /// A message is sent.
    fn send(&mut self, link: Link)
        requires few { sent_in self.old link ≤ self.old.place }
        requires room { self.old.place < 2 ^ 64 - 1 }
        ensures { HasMoved self.old self.new (one_more link (sent_in self.old)) (unread_in self.old) }
    {
        self.sent.add(link);
        self.place += 1;
    }

    /// A message is taken, if one has come that isn't; else the miner waits for it. It answers which.
    fn take(&mut self, link: Link) -> bool
        requires { self.old.place < 2 ^ 64 - 1 }
        ensures { HasTaken self.old self.new link result }
    {
        if self.unread.on(link) == 0 {
            self.waits = Some(link);
            return false;
        }
        self.unread.remove(link);
        self.place += 1;
        true
    }

    /// Does the next move, if it can, and answers whether it could.
    fn step(&mut self, next: Move) -> bool
        requires few { (l : Link) → sent_in self.old l ≤ self.old.place }
        requires room { self.old.place < 2 ^ 64 - 1 }
        ensures { Steps self.old self.new next result }
    {
        match next {
            Move::Sends(link) => {
                self.send(link);
                true
            }
            Move::Takes(link) => self.take(link),
        }
    }

    /// Does all moves that it can.
    fn go_on(&mut self, script: &[Move])
        requires { InPlace script.now self.old }
        ensures { (got : Counts) → IsBehind script.now got self.old → IsSettled script.now got self.new }
    {
        while self.place < script.len() {
            if !self.step(script[self.place]) {
                return;
            }
        }
        self.waits = None;
    }

    /// A message comes, and all is done that it allows.
    pub fn receive(&mut self, script: &[Move], link: Link)
        requires placed { InPlace script.now self.old }
        requires room { unread_in self.old link < 2 ^ 64 - 1 }
        ensures { (got : Counts) → IsSettled script.now got self.old → IsSettled script.now (one_more link got) self.new }
    {
        self.unread.add(link);
        self.go_on(script);
    }
}
