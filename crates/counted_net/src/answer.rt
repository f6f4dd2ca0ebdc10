// What a delivery comes to.
ghost use Rattle.std.specs.Prelude.{List};
ghost use Rattle.proto_core.specs.declared.party.Number.{Number};
ghost use Rattle.proto_core.specs.Script.{Move};
ghost use Rattle.protocol_model.specs.Network as network;
ghost use Rattle.tape_file.specs.Seeds.{stream_word};
ghost use Rattle.counted_net.specs.Scripts.{plain_of, AreScripts};
ghost use Rattle.counted_net.specs.Answers.{delivery_seen, IsNetAnswer};

use crate::delivery::{Delivery, DeliveryErr};
use crate::moves::Scripts;
use crate::net::Net;
use proto_core::Link;
use rand_chacha::ChaCha20Rng;
use rand_core::SeedableRng;
use rand_core::utils::NextWord;
use std::alloc::Global;

/// The stream of ChaCha20 from which an order takes its words.
pub const ORDER_STREAM: u64 = 4;

/// Always on the first link with a message under way, until none has one.
fn in_turn(alloc: Global, scripts: &Scripts) -> Result<Vec<Link>, DeliveryErr>
    ensures { IsNetAnswer (plain_of scripts.now) network.Default result }
{
    let mut net = Net::new(alloc, scripts);
    while let Some(link) = net.chosen(0) {
        net.give(link)?;
    }
    net.into_delivered()
}

/// On these links.
fn scheduled(alloc: Global, scripts: &Scripts, links: &[Link]) -> Result<Vec<Link>, DeliveryErr>
    ensures { IsNetAnswer (plain_of scripts.now) (network.Listed links.now) result }
{
    let mut net = Net::new(alloc, scripts);
    for link in links {
        net.deliver(*link)?;
    }
    net.into_delivered()
}

/// On number `w mod k` of the `k` links with a message under way, where `w` is the next 32-bit word of stream 4 of ChaCha20 under the seed: one
/// for each delivery, also where `k` is 1.
fn shuffled(alloc: Global, scripts: &Scripts, seed: [u8; 32]) -> Result<Vec<Link>, DeliveryErr>
    ensures { IsNetAnswer (plain_of scripts.now) (network.Shuffled (stream_word seed 4)) result }
{
    let mut net = Net::new(alloc, scripts);
    let mut words = ChaCha20Rng::from_seed(seed);
    words.set_stream(ORDER_STREAM);
    while let Some(link) = net.chosen(words.next_word()) {
        net.give(link)?;
    }
    net.into_delivered()
}

/// The links that a delivery delivers, in order; or why it is refused. The scripts alone decide it.
pub fn deliver_counts(
    alloc: Global,
    scripts: &Scripts,
    delivery: &Delivery,
) -> Result<Vec<Link>, DeliveryErr>
    ensures { (moves : Number → List Move) → AreScripts moves scripts.now → IsNetAnswer moves (delivery_seen delivery.now) result }
{
    match delivery {
        Delivery::InTurn => in_turn(alloc, scripts),
        Delivery::Scheduled(links) => scheduled(alloc, scripts, links),
        Delivery::Shuffled(seed) => shuffled(alloc, scripts, *seed),
    }
}
