// A miner that joins its peers.
ghost use Rattle.std.specs.Prelude.{◌≡◌, ◌≤◌};
ghost use Rattle.proto_core.specs.Parties.{count_of};
ghost use Rattle.miner_core.specs.Miners.{held};
ghost use Rattle.miner_node.specs.declared.node_err.ServeErr.TheVariants.{Node};
ghost use Rattle.miner_node.specs.Faults.{IsLater, unsent};
ghost use Rattle.miner_node.specs.Tapes.{IsReady};
ghost use Rattle.node_run.specs.Nodes.{JoinsAndServes};

use miner_core::Miner;
use miner_node::{NodeErr, ServeErr, Served, serve_from};
use outside::{FileErr, Links, TapeSource};
use proto_core::Party;
use std::alloc::Global;
use wire::Hello;

// Why a node has no text whose peers could not be joined.
fn unjoined(e: FileErr) -> ServeErr
    ensures { result ≡ Node (unsent e) }
{
    match e {
        FileErr::Failed => ServeErr::Node(NodeErr::LinkFault),
        FileErr::Memory => ServeErr::Node(NodeErr::Memory),
    }
}

/// Joins the other two at three ports, of which this is the first, and serves the links to them until the miner's run has ended. A peer that
/// can't be joined is a fault of the links.
pub(crate) fn serve_joined<P: Party, L: Links, T: TapeSource>(
    alloc: Global,
    miner: Miner<P>,
    hello: &Hello,
    port: u16,
    links: &mut L,
    tapes: &mut T,
) -> Result<Served<P>, ServeErr>
    requires ready { IsReady P.me (held miner) (T.state tapes.old) }
    requires sender { hello.now.sender ≡ count_of P.me }
    requires port_from { 1 ≤ port }
    requires port_to { port ≤ 65533 }
    ensures serves { JoinsAndServes P.me port hello.now (L.state links.old) (L.state links.new) (T.state tapes.old) (T.state tapes.new) (held miner) result
        (λ s. held s.miner) (λ s. s.ending) }
    ensures later { IsLater (L.state links.old) (L.state links.new) }
{
    match links.connect(P::number().as_u8(), port) {
        Ok(()) => serve_from(alloc, miner, hello, links, tapes),
        Err(e) => Err(unjoined(e)),
    }
}
