// Three miners joined by links, of which only counts are kept.
ghost use Rattle.std.specs.Prelude.{◌≡◌, ◌<◌, ◌^◌, [], length, OnOk};
ghost use Rattle.protocol_model.specs.Network.{posted_count};
ghost use Rattle.counted_net.specs.Nets.{after, got_of, is_under_way, scripts_in, state_of, DeliverAnswers, EndAnswers, HasEnded};

use crate::delivery::DeliveryErr;
use crate::miners::Miners;
use crate::moves::Scripts;
use crate::tally::Tally;
use proto_core::{Link, Number};
use std::alloc::{AllocError, Global};
use std::marker::Model;

/// Three miners joined by links. Contracts see their scripts, and the link of each delivery in order.
#[derive(Drop)]
pub struct Net<'a> {
    scripts: &'a Scripts,
    miners: Miners,
    given: Tally,
    delivered: Vec<Link>,
}

impl<'a> Model for Net<'a> {
    ghost use Rattle.counted_net.specs.Nets.{NetState, state_of, IsNet};

    ghost Value = { NetState };

    ghost view = { λ n. state_of n.scripts.now n.delivered.items };

    ghost invariant = { λ n. IsNet n.scripts.now n.delivered.items n.miners n.given };
}

impl<'a> Net<'a> {
    /// Three miners with these scripts, to which nothing was delivered.
    pub fn new(alloc: Global, scripts: &'a Scripts) -> Net<'a>
        ensures { result ≡ state_of scripts.now [] }
    {
        Net {
            scripts,
            miners: Miners::new(scripts),
            given: Tally::new(),
            delivered: Vec::new(alloc),
        }
    }

    /// How many messages were sent on a link.
    fn sent(&self, link: Link) -> usize
        ensures { result ≡ posted_count (scripts_in self.now) (got_of self.now.delivered) link }
    {
        self.miners.sent(link)
    }

    /// Whether a message of this link is under way.
    pub fn is_under_way(&self, link: Link) -> bool
        ensures { result ≡ is_under_way self.now link }
    {
        self.given.on(link) < self.sent(link)
    }

    /// A message of a link comes, and its receiver does all that it allows.
    pub fn give(&mut self, link: Link) -> Result<(), AllocError>
        ensures after { OnOk result (self.new ≡ after self.old link) }
        // A list in memory is no longer than this.
        ensures bound { OnOk result (length self.new.delivered < 2 ^ 63) }
    {
        self.delivered.push(link)?;
        self.given.add(link);
        self.miners.receive(self.scripts, link);
        Ok(())
    }

    /// The oldest message of a link that wasn't delivered comes, if one is under way.
    pub fn deliver(&mut self, link: Link) -> Result<(), DeliveryErr>
        ensures { DeliverAnswers self.old self.new link result }
    {
        if !self.is_under_way(link) {
            return Err(DeliveryErr::EmptyLink {
                entry: self.delivered.len() as u64,
                link,
                sent: self.sent(link) as u64,
            });
        }
        self.give(link)?;
        Ok(())
    }

    /// The lowest miner that waits is named, if one does.
    fn stalled(&self) -> Result<(), DeliveryErr>
        ensures { EndAnswers self.now result }
    {
        if let Some(link) = self.miners.one.waits {
            let miner = Number::One;
            return Err(DeliveryErr::Stalled { miner, link });
        }
        if let Some(link) = self.miners.two.waits {
            let miner = Number::Two;
            return Err(DeliveryErr::Stalled { miner, link });
        }
        if let Some(link) = self.miners.three.waits {
            let miner = Number::Three;
            return Err(DeliveryErr::Stalled { miner, link });
        }
        Ok(())
    }

    /// The links of all deliveries so far, in order.
    pub fn into_links(self) -> Vec<Link>
        ensures { result.items ≡ self.entry.delivered }
    {
        self.delivered
    }

    /// The links of all deliveries in order, where no miner waits.
    pub fn into_delivered(self) -> Result<Vec<Link>, DeliveryErr>
        ensures { HasEnded self.entry result }
    {
        self.stalled()?;
        Ok(self.delivered)
    }
}
