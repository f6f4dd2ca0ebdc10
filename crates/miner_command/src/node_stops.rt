// Why a node has no text.
ghost use Rattle.std.specs.Prelude.{◌≡◌};
ghost use Rattle.command_frame.specs.Stops.{IsBreachFor};
ghost use Rattle.miner_command.specs.Miner.{bad_peer, hello_field, message_fault};
ghost use Rattle.miner_command.specs.Playing.{IsNodeStop, IsServeStop};

use command_frame::{HelloField, NodeFault, Object, Status, Stop, breached, file_stop};
use miner_node::{NodeErr, ServeErr};
use proto_core::{BadMessage, Link};
use std::alloc::Global;
use wire::Field;

fn hello_field(field: Field) -> HelloField
    ensures { result ≡ hello_field field }
{
    match field {
        Field::Version => HelloField::Version,
        Field::Sender => HelloField::Sender,
        Field::Receiver => HelloField::Receiver,
        Field::Code => HelloField::Code,
        Field::Public => HelloField::Public,
    }
}

// What is wrong with a message that came on this link.
fn message_fault(link: Link, cause: BadMessage) -> NodeFault
    ensures { result ≡ message_fault link cause }
{
    match cause {
        BadMessage::BadLength { want, have } => NodeFault::OtherLength { link, want, have },
        BadMessage::NotABit { place, word } => NodeFault::NotABit { link, place, word },
    }
}

// That a peer sent what it must not send.
#[tactic(auto, unfolding(crate::specs::Miner::bad_peer))]
fn peer_stop(alloc: Global, fault: NodeFault) -> Stop
    ensures { IsBreachFor (bad_peer fault) result }
{
    breached(Status::Peer, format!(in alloc; "{fault}"))
}

// Why a node has no text: its links failed, a peer sent what it must not send, or memory ran out.
fn node_stop(alloc: Global, refusal: NodeErr) -> Stop
    ensures { IsNodeStop refusal result }
{
    match refusal {
        NodeErr::LinkFault => Stop::Failed(Object::Links),
        NodeErr::PeerMismatch { field, .. } => {
            peer_stop(alloc, NodeFault::OtherHello(hello_field(field)))
        }
        NodeErr::BadFrame { place } => peer_stop(alloc, NodeFault::BadFrame { place }),
        NodeErr::BadMessage { link, cause } => peer_stop(alloc, message_fault(link, cause)),
        NodeErr::Memory => Stop::Memory,
    }
}

/// The same of one that draws its tape from the file at this path, of which words couldn't be read.
pub(crate) fn serve_stop(alloc: Global, refusal: ServeErr, tape: &str) -> Stop
    ensures { IsServeStop tape.now refusal result }
{
    match refusal {
        ServeErr::Node(refusal) => node_stop(alloc, refusal),
        ServeErr::TapeFault => file_stop(alloc, tape),
    }
}
