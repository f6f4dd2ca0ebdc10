// Hellos: both are sent before one is read, the lower peer's first.
ghost use Rattle.std.specs.Prelude.{◌≡◌};
ghost use Rattle.proto_core.specs.Parties.{count_of};
ghost use Rattle.wire.specs.Hellos.{hello_bytes};
ghost use Rattle.miner_node.specs.Answers.{Greets, Hears};
ghost use Rattle.miner_node.specs.Peers.{higher_peer, lower_peer};
ghost use Rattle.miner_node.specs.Serving.{hello_to};
ghost use Rattle.miner_node.specs.Transfers.{SendsAll};

use crate::node_err::NodeErr;
use crate::transfers::{recv_all, send_all};
use outside::Links;
use proto_core::Number;
use std::alloc::Global;
use wire::{Hello, mismatch, read_hello};

/// The peer with the lower number.
fn lower(me: Number) -> Number
    ensures { result ≡ lower_peer me }
{
    match me {
        Number::One => Number::Two,
        Number::Two | Number::Three => Number::One,
    }
}

/// The peer with the higher number.
fn higher(me: Number) -> Number
    ensures { result ≡ higher_peer me }
{
    match me {
        Number::One | Number::Two => Number::Three,
        Number::Three => Number::Two,
    }
}

/// Sends a peer its hello.
fn say_hello<L: Links>(
    alloc: Global,
    hello: &Hello,
    peer: Number,
    links: &mut L,
) -> Result<(), NodeErr>
    ensures { SendsAll (L.state links.old) (L.state links.new) (count_of peer) (hello_bytes (hello_to hello.now peer)) result }
{
    let number = peer.as_u8();
    let mut bytes = Vec::new(alloc);
    wire::hello(&hello.to_peer(number), &mut bytes)?;
    send_all(links, number, &bytes)
}

/// Reads a peer's hello, which has to be the one that this miner expects of it.
fn hear_hello<L: Links>(hello: &Hello, peer: Number, links: &mut L) -> Result<(), NodeErr>
    ensures { Hears hello.now peer (L.state links.old) (L.state links.new) result }
{
    let number = peer.as_u8();
    let mut bytes = [0; 68];
    recv_all(links, number, &mut bytes)?;
    let theirs = read_hello(&bytes)?;
    let mine = hello.from_peer(number);
    match mismatch(&mine, &theirs) {
        None => Ok(()),
        Some(field) => Err(NodeErr::PeerMismatch {
            field,
            mine,
            theirs,
        }),
    }
}

/// Sends both peers their hellos, and reads theirs, the lower peer's first.
pub(crate) fn greet<L: Links>(
    alloc: Global,
    me: Number,
    hello: &Hello,
    links: &mut L,
) -> Result<(), NodeErr>
    ensures { Greets me hello.now (L.state links.old) (L.state links.new) result }
{
    say_hello(alloc, hello, me.next(), links)?;
    say_hello(alloc, hello, me.previous(), links)?;
    hear_hello(hello, lower(me), links)?;
    hear_hello(hello, higher(me), links)
}
