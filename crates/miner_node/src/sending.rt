// The frames of a miner's messages, to its two peers.
ghost use Rattle.std.specs.Prelude.{◌≡◌, ◌<◌, ◌≤◌, length, get_or, []};
ghost use Rattle.proto_core.specs.Parties.{count_of, next_of, previous_of};
ghost use Rattle.miner_core.specs.declared.kept.Kept.TheVariants as kept;
ghost use Rattle.miner_core.specs.Miners.{held};
ghost use Rattle.miner_core.specs.Story.{sent_to_next, sent_to_previous};
ghost use Rattle.miner_core.specs.Streams.{ForEachTape};
ghost use Rattle.wire.specs.Frames.{frame_bytes};
ghost use Rattle.miner_node.specs.Transfers.{SendsAll};
ghost use Rattle.miner_node.specs.Turns.{SendsFrom, SendsNew};

use crate::node_err::NodeErr;
use crate::transfers::send_all;
use miner_core::Miner;
use outside::Links;
use proto_core::{Messages, Party};
use std::alloc::Global;
use wire::frame_words;

/// Of how many messages for each peer the frames were sent.
#[derive(Clone, Copy)]
pub(crate) struct SentCounts {
    pub to_next: usize,
    pub to_previous: usize,
}

/// Sends a peer the frame of these words.
fn send_frame<L: Links>(
    alloc: Global,
    words: &[u64],
    peer: u8,
    links: &mut L,
) -> Result<(), NodeErr>
    requires short { length words.now ≤ 2048 }
    requires from { 1 ≤ peer }
    requires to { peer ≤ 3 }
    ensures { SendsAll (L.state links.old) (L.state links.new) peer (frame_bytes words.now) result }
{
    let mut bytes = Vec::new(alloc);
    frame_words(words, &mut bytes)?;
    send_all(links, peer, &bytes)
}

/// Sends a peer the frame of the message of a number, from 0.
fn send_message<L: Links>(
    alloc: Global,
    messages: &Messages,
    at: usize,
    peer: u8,
    links: &mut L,
) -> Result<(), NodeErr>
    requires within { at < length messages.now }
    requires from { 1 ≤ peer }
    requires to { peer ≤ 3 }
    ensures { SendsAll (L.state links.old) (L.state links.new) peer (frame_bytes (get_or messages.now at [])) result }
{
    match messages.lent(at) {
        Some(words) => send_frame(alloc, words, peer, links),
        None => Ok(()),
    }
}

/// Sends a peer the frames of the messages from number `sent` on; how many messages there are.
fn send_from<L: Links>(
    alloc: Global,
    messages: &Messages,
    sent: usize,
    peer: u8,
    links: &mut L,
) -> Result<usize, NodeErr>
    requires from { 1 ≤ peer }
    requires to { peer ≤ 3 }
    ensures { SendsFrom (L.state links.old) (L.state links.new) peer messages.now sent result }
{
    for at in sent..messages.len() {
        send_message(alloc, messages, at, peer, links)?;
    }
    Ok(messages.len())
}

/// Sends the next miner the frames of the messages for it from number `sent` on; how many messages there are.
fn send_next<P: Party, L: Links>(
    alloc: Global,
    miner: &Miner<P>,
    sent: usize,
    links: &mut L,
) -> Result<usize, NodeErr>
    requires { miner.now.past ≡ kept.All }
    ensures { ForEachTape (held miner.now) (λ s. SendsFrom (L.state links.old) (L.state links.new) (count_of (next_of P.me)) (sent_to_next P.me s) sent result) }
{
    let peer = P::number().next().as_u8();
    send_from(alloc, miner.sent_to_next(), sent, peer, links)
}

/// The same of the previous miner.
fn send_previous<P: Party, L: Links>(
    alloc: Global,
    miner: &Miner<P>,
    sent: usize,
    links: &mut L,
) -> Result<usize, NodeErr>
    requires { miner.now.past ≡ kept.All }
    ensures { ForEachTape (held miner.now) (λ s. SendsFrom (L.state links.old) (L.state links.new) (count_of (previous_of P.me)) (sent_to_previous P.me s)
        sent result) }
{
    let peer = P::number().previous().as_u8();
    send_from(alloc, miner.sent_to_previous(), sent, peer, links)
}

/// Sends what a miner has sent since these counts, and counts it.
pub(crate) fn send_new<P: Party, L: Links>(
    alloc: Global,
    miner: &Miner<P>,
    counts: &mut SentCounts,
    links: &mut L,
) -> Result<(), NodeErr>
    requires { miner.now.past ≡ kept.All }
    ensures { ForEachTape (held miner.now) (λ s. SendsNew P.me s counts.old counts.new (L.state links.old) (L.state links.new) result) }
{
    let next = send_next(alloc, miner, counts.to_next, links)?;
    counts.to_next = next;
    let previous = send_previous(alloc, miner, counts.to_previous, links)?;
    counts.to_previous = previous;
    Ok(())
}
