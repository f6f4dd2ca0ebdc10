// Orders of deliveries that a net makes itself.
ghost use Rattle.std.specs.Prelude.{◌≡◌, Err, IfSome, OnOk};
ghost use Rattle.outside.specs.Tapes.{TapesState};
ghost use Rattle.protocol_model.specs.Network.{chosen};
ghost use Rattle.tape_file.specs.Seeds.{stream_word};
ghost use Rattle.link_schedule.specs.Net.{net_mail, nodes_in};
ghost use Rattle.link_schedule.specs.Orders.{full_links, Makes};
ghost use Rattle.link_schedule.specs.Miners.{ForEachState, GoesAlong, IsNetOf, IsSomeNet};
ghost use Rattle.link_schedule.specs.Streams.{lost_by, ForEachTapes, StreamNet};

use crate::net::Net3;
use counted_net::{ORDER_STREAM, chosen_link};
use miner_core::Lost;
use outside::TapeSource;
use proto_core::Link;
use rand_chacha::ChaCha20Rng;
use rand_core::SeedableRng;
use rand_core::utils::NextWord;

impl Net3 {
    /// Of the links with a message under way, in order, the one that a word chooses.
    fn chosen(&self, word: u32) -> Option<Link>
        ensures { (s : StreamNet) → IsNetOf self.now s →
            ForEachTapes s (λ net. result ≡ chosen word (full_links (nodes_in net) (net_mail net))) }
    {
        let full = [
            self.is_under_way(Link::Link12),
            self.is_under_way(Link::Link13),
            self.is_under_way(Link::Link21),
            self.is_under_way(Link::Link23),
            self.is_under_way(Link::Link31),
            self.is_under_way(Link::Link32),
        ];
        chosen_link(&full, word)
    }

    /// Delivers always the first link, in the order 12, 13, 21, 23, 31, 32, that has a message under way, until none has. `TapeFault` comes as
    /// from `deliver`.
    pub fn drain<T: TapeSource>(&mut self, tapes: &mut T) -> Result<(), Lost>
        requires { IsSomeNet self.old (T.state tapes.old) }
        ensures made { ForEachState self.old (T.state tapes.old) (λ s.
            GoesAlong s self.new (T.state tapes.old) (T.state tapes.new) (lost_by result) (λ net then. OnOk result (Makes (λ k. 0) net then))) }
        ensures lost { IfSome self.old.lost (λ why. (result ≡ Err why) × (self.new ≡ self.old) × (tapes.new ≡ tapes.old)) }
    {
        if let Some(lost) = self.lost {
            return Err(lost);
        }
        while let Some(link) = self.chosen(0) {
            self.deliver_full(link, tapes)?;
        }
        Ok(())
    }

    /// Delivers, until no message is under way, number `w mod k` of the `k` links that have one, in the order 12, 13, 21, 23, 31, 32, where
    /// `w` is the next 32-bit word of stream 4 of ChaCha20 under the seed: one for each delivery, also where `k` is 1. `TapeFault` comes as
    /// from `deliver`.
    pub fn shuffled<T: TapeSource>(&mut self, seed: [u8; 32], tapes: &mut T) -> Result<(), Lost>
        requires { IsSomeNet self.old (T.state tapes.old) }
        ensures made { ForEachState self.old (T.state tapes.old) (λ s.
            GoesAlong s self.new (T.state tapes.old) (T.state tapes.new) (lost_by result)
            (λ net then. OnOk result (Makes (stream_word seed 4) net then))) }
        ensures lost { IfSome self.old.lost (λ why. (result ≡ Err why) × (self.new ≡ self.old) × (tapes.new ≡ tapes.old)) }
    {
        if let Some(lost) = self.lost {
            return Err(lost);
        }
        let mut words = ChaCha20Rng::from_seed(seed);
        words.set_stream(ORDER_STREAM);
        while let Some(link) = self.chosen(words.next_word()) {
            self.deliver_full(link, tapes)?;
        }
        Ok(())
    }
}
