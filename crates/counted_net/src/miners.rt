// Three miners, each in its script.
ghost use Rattle.std.specs.Prelude.{◌≡◌, ◌<◌, ◌-◌, ◌^◌};
ghost use Rattle.proto_core.specs.declared.party.Number.{Number};
ghost use Rattle.proto_core.specs.Parties.{receiver_of};
ghost use Rattle.protocol_model.specs.Network.{Counts, none_delivered, one_more};
ghost use Rattle.counted_net.specs.Scripts.{moves_of};
ghost use Rattle.counted_net.specs.Cursors.{unread_in, InPlace};
ghost use Rattle.counted_net.specs.Nets.{cursor_in, sent_on, AreSettled};

use crate::cursor::Cursor;
use crate::moves::Scripts;
use proto_core::{Link, Number};

/// Where each of the three miners stands in its script.
#[derive(Drop)]
pub(crate) struct Miners {
    pub one: Cursor,
    pub two: Cursor,
    pub three: Cursor,
}

impl Miners {
    /// Where they stand when nothing has come.
    pub fn new(scripts: &Scripts) -> Miners
        ensures { AreSettled scripts.now none_delivered result }
    {
        Miners {
            one: Cursor::new(&scripts.one),
            two: Cursor::new(&scripts.two),
            three: Cursor::new(&scripts.three),
        }
    }

    /// How many messages were sent on a link by the miner at which it begins.
    pub fn sent(&self, link: Link) -> usize
        ensures { result ≡ sent_on self.now link }
    {
        match link.sender() {
            Number::One => self.one.sent.on(link),
            Number::Two => self.two.sent.on(link),
            Number::Three => self.three.sent.on(link),
        }
    }

    /// A message of a link comes to its receiver, which does all that it allows.
    pub fn receive(&mut self, scripts: &Scripts, link: Link)
        requires placed { (i : Number) → InPlace (moves_of scripts.now i) (cursor_in self.old i) }
        requires room { unread_in (cursor_in self.old (receiver_of link)) link < 2 ^ 64 - 1 }
        ensures { (got : Counts) → AreSettled scripts.now got self.old → AreSettled scripts.now (one_more link got) self.new }
    {
        match link.receiver() {
            Number::One => self.one.receive(&scripts.one, link),
            Number::Two => self.two.receive(&scripts.two, link),
            Number::Three => self.three.receive(&scripts.three, link),
        }
    }
}
