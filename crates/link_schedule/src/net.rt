ghost use Rattle.std.specs.Prelude.{◌≡◌, ◌+◌, true, false, [], ◌∷◌, length, Err, None, OnOk, IfSome};
ghost use Rattle.outside.specs.Tapes.{TapesState};
ghost use Rattle.proto_core.specs.declared.party.Number.TheVariants.{One, Two, Three};
ghost use Rattle.miner_core.specs.Streams.{StreamState};
ghost use Rattle.link_schedule.specs.declared.errors.DeliverErr.TheVariants as delivering;
ghost use Rattle.link_schedule.specs.Miners.{AreNew, ForEachState, GoesAlong, IsMinerAt, IsNetOf, IsOnItsWay, IsSomeNet};
ghost use Rattle.link_schedule.specs.Net.{after, is_under_way, net_posted};
ghost use Rattle.link_schedule.specs.Streams.{new_net, lost_by, delivery_lost, ForEachTapes, HasLeft, StreamNet};
ghost use Rattle.link_schedule.specs.Answers.{DeliverAnswers};

use crate::errors::DeliverErr;
use crate::miners::Miners;
use counted_net::Tally;
use miner_core::{Lost, Miner};
use outside::TapeSource;
use proto_core::{Link, P1, P2, P3};
use std::alloc::Global;

/// Three miners and their links, whose tapes are drawn from one source, word by word as their gates begin. Its miners keep all, or let go what is
/// done with: then no view of its run can be told.
///
/// Contracts speak of it by the states that it may be in (`IsNetOf`): what the three were made with, the words that each has drawn and how many it
/// has left, and the link of each delivery in order. With these it is said which messages were delivered, what each miner has done, and where it
/// stands: what is said holds with all three tapes that begin with the words drawn, and have as many after them as are left.
///
/// Once memory ran out or a tape couldn't be read, it is of no further use: each call that delivers answers so.
pub struct Net3 {
    pub(crate) miners: Miners,
    pub(crate) given: Tally,
    pub(crate) recorded: Vec<Link>,
    pub(crate) lost: Option<Lost>,
}

// Written out, so that an early exit calls this once.
impl Drop for Net3 {
    fn drop(self) {
        let Net3 {
            miners: _,
            given: _,
            recorded: _,
            lost: _,
        } = self;
    }
}

impl Net3 {
    /// Three miners that were made with one code, budget and public part of the inputs, and to which nothing was delivered.
    pub fn new(miner1: Miner<P1>, miner2: Miner<P2>, miner3: Miner<P3>, alloc: Global) -> Net3
        ensures net { (one two three : StreamState) → AreNew miner1 miner2 miner3 one two three → IsNetOf result (new_net one two three) }
        ensures one { result.miners.one ≡ miner1 }
        ensures two { result.miners.two ≡ miner2 }
        ensures three { result.miners.three ≡ miner3 }
    {
        Net3 {
            miners: Miners {
                one: miner1,
                two: miner2,
                three: miner3,
            },
            given: Tally::new(),
            recorded: Vec::new(alloc),
            lost: None,
        }
    }

    /// Whether a message of this link is under way.
    pub(crate) fn is_under_way(&self, link: Link) -> bool
        ensures { (s : StreamNet) → IsNetOf self.now s → ForEachTapes s (λ net. result ≡ is_under_way net link) }
    {
        self.miners.oldest(link).is_some()
    }

    /// How many messages were sent on a link of which all are delivered.
    fn sent(&self, link: Link) -> usize
        ensures { (s : StreamNet) → IsNetOf self.now s → ForEachTapes s (λ net. is_under_way net link ≡ false → result ≡ length (net_posted net link)) }
    {
        self.given.on(link)
    }

    /// Delivers on a link that has a message under way.
    pub(crate) fn deliver_full<T: TapeSource>(
        &mut self,
        link: Link,
        tapes: &mut T,
    ) -> Result<(), Lost>
        requires { (s : StreamNet) × IsNetOf self.old s × (s.lost ≡ None) × HasLeft s (T.state tapes.old) × IsOnItsWay link s }
        ensures delivers { ForEachState self.old (T.state tapes.old) (λ s. IsOnItsWay link s →
            GoesAlong s self.new (T.state tapes.old) (T.state tapes.new) (lost_by result) (λ net then. OnOk result (then ≡ after net (link ∷ [])))) }
        ensures recorded { OnOk result (length self.new.recorded.items ≡ length self.old.recorded.items + 1) }
    {
        if let Err(lost) = self.miners.pass(link, tapes) {
            self.lost = Some(lost);
            return Err(lost);
        }
        if let Err(_) = self.recorded.push(link) {
            self.lost = Some(Lost::Memory);
            return Err(Lost::Memory);
        }
        self.given.add(link);
        Ok(())
    }

    /// The oldest message of a link that wasn't delivered comes to its receiver, which does all that it leads to. The source has the words
    /// left that the miners haven't drawn, as after the last delivery.
    ///
    /// `EmptyLink` comes exactly where all messages that were sent on the link are delivered, and the net is then as before. `Lost` with
    /// `TapeFault` comes only where the source counted a fault in this call, or where an earlier call on this net has answered it: then each
    /// call answers the same.
    pub fn deliver<T: TapeSource>(&mut self, link: Link, tapes: &mut T) -> Result<(), DeliverErr>
        requires { IsSomeNet self.old (T.state tapes.old) }
        ensures answers { ForEachState self.old (T.state tapes.old) (λ s.
            GoesAlong s self.new (T.state tapes.old) (T.state tapes.new) (delivery_lost result) (λ net then. DeliverAnswers net then link result)) }
        ensures lost { IfSome self.old.lost (λ why. (result ≡ Err (delivering.Lost why)) × (self.new ≡ self.old) × (tapes.new ≡ tapes.old)) }
    {
        if let Some(lost) = self.lost {
            return Err(DeliverErr::Lost(lost));
        }
        if !self.is_under_way(link) {
            return Err(DeliverErr::EmptyLink {
                entry: self.recorded.len() as u64,
                link,
                sent: self.sent(link) as u64,
            });
        }
        self.deliver_full(link, tapes)?;
        Ok(())
    }

    /// The link of each delivery so far, in order.
    pub fn recorded(&self) -> &[Link]
        ensures { (s : StreamNet) → IsNetOf self.now s → result.now ≡ s.delivered }
    {
        &self.recorded
    }

    /// The first miner.
    pub fn miner1(&self) -> &Miner<P1>
        ensures miner { (s : StreamNet) → IsNetOf self.now s → s.lost ≡ None → IsMinerAt s One result.now }
        ensures own { result.now ≡ self.now.miners.one }
    {
        &self.miners.one
    }

    /// The second miner.
    pub fn miner2(&self) -> &Miner<P2>
        ensures miner { (s : StreamNet) → IsNetOf self.now s → s.lost ≡ None → IsMinerAt s Two result.now }
        ensures own { result.now ≡ self.now.miners.two }
    {
        &self.miners.two
    }

    /// The third miner.
    pub fn miner3(&self) -> &Miner<P3>
        ensures miner { (s : StreamNet) → IsNetOf self.now s → s.lost ≡ None → IsMinerAt s Three result.now }
        ensures own { result.now ≡ self.now.miners.three }
    {
        &self.miners.three
    }
}
