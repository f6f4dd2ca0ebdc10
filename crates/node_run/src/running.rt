// One miner's part of a run.
ghost use Rattle.std.specs.Prelude.{◌≡◌, ◌≤◌, IfOk};
ghost use Rattle.input_share.specs.Reading.{AreWritable};
ghost use Rattle.node_run.specs.Made.{IsMadeOf, hello_of, undealt};
ghost use Rattle.miner_core.specs.declared.kept.Kept.TheVariants as kept;
ghost use Rattle.miner_core.specs.Drawing.{Draws};
ghost use Rattle.miner_core.specs.Miners.{held};
ghost use Rattle.miner_core.specs.Streams.{ForEachTape};
ghost use Rattle.miner_node.specs.Faults.{IsLater};
ghost use Rattle.node_run.specs.Nodes.{HasTold, RunsFrom, unbegun};
ghost use Rattle.node_run.specs.Views.{own_seen};

use crate::joining::serve_joined;
use crate::text::{end_of, text_of};
use crate::{Made, hello, miner};
use input_share::ShareFile;
use miner_core::{Lost, Miner};
use miner_node::{NodeErr, ServeErr, Served};
use outside::{Links, TapeSource};
use proto_core::Party;
use sc_text::{End, Ending};
use std::alloc::{AllocError, Global};
use verified_code::Verified;
use wire::Hello;

/// What a miner has for its part of a run, beside its tape: its code, and the SHA-256 digest of the file in which it stands; its share file; and
/// the most that the run may cost.
pub struct OwnPart {
    pub digest: [u8; 32],
    pub code: Verified,
    pub share: ShareFile,
    pub budget: u64,
}

/// What a miner writes of its part of a run, and how the run has ended.
pub struct NodeText {
    pub text: Vec<u8>,
    pub end: End,
}

// A miner that has not joined its peers, with its hello.
struct Begun<P: Party> {
    hello: Hello,
    miner: Miner<P>,
    undealt: Option<Ending>,
}

// What a node begins with. Words of its tape are drawn up to its first wait.
fn begin<P: Party, T: TapeSource>(
    alloc: Global,
    own: OwnPart,
    tapes: &mut T,
) -> Result<Begun<P>, Lost>
    requires { AreWritable own.share.entries }
    ensures hello { IfOk result (λ begun. begun.hello ≡ hello_of P.me own.digest own.share own.budget) }
    ensures miner { IfOk result (λ begun. IsMadeOf P.me own.code own.share own.budget (T.state tapes.old) (T.state tapes.new) (held begun.miner)) }
    ensures past { IfOk result (λ begun. begun.miner.past ≡ kept.All) }
    ensures undealt { IfOk result (λ begun. begun.undealt ≡ undealt own.share) }
    ensures draws { Draws P.me (T.state tapes.old) (T.state tapes.new) result }
{
    let OwnPart {
        digest,
        code,
        share,
        budget,
    } = own;
    let hello = hello(alloc, P::number(), digest, &share, budget)?;
    let Made { miner, undealt } = miner::<P, T>(alloc, code, &share, budget, tapes)?;
    Ok(Begun {
        hello,
        miner,
        undealt,
    })
}

// Why a node has no text whose miner could not be made.
fn unbegun(lost: Lost) -> ServeErr
    ensures { result ≡ unbegun lost }
{
    match lost {
        Lost::Memory => ServeErr::Node(NodeErr::Memory),
        Lost::TapeFault => ServeErr::TapeFault,
    }
}

// The text of a node that has served its links.
fn text_served<P: Party>(
    alloc: Global,
    undealt: Option<Ending>,
    served: Served<P>,
) -> Result<NodeText, AllocError>
    requires { served.miner.past ≡ kept.All }
    ensures { IfOk result (λ told. ForEachTape (held served.miner) (λ s. HasTold P.me undealt s served.ending told)) }
{
    let Served { miner, ending } = served;
    let end = end_of(undealt, &miner, ending);
    let text = text_of(alloc, &miner, end)?;
    Ok(NodeText { text, end })
}

/// A miner plays its part: it joins its two peers at three ports, of which this is the first, sends both its hello, reads theirs, and serves the
/// links until its run has ended. Its tape is what the source has left for it, and is drawn where its gates want words, from before it joins its peers
/// on. Where the dealer's tape is too short for the inputs it exchanges hellos, sends nothing else and draws nothing.
///
/// Else the error says why it stopped. After `PeerMismatch`, `BadFrame` and `BadMessage` exactly the bytes were sent that all that was read
/// leads to; after `LinkFault`, `TapeFault` and `Memory` a front of those for each peer. A peer that can't be joined is a `LinkFault`.
/// `TapeFault` comes only where the source counted a fault in this call, and never where it is steady. What is said holds for each tape that
/// begins with the words drawn, and has as many after them as are left.
pub fn run_node<P: Party, L: Links, T: TapeSource>(
    alloc: Global,
    own: OwnPart,
    port: u16,
    links: &mut L,
    tapes: &mut T,
) -> Result<NodeText, ServeErr>
    requires form { AreWritable own.share.entries }
    requires port_from { 1 ≤ port }
    requires port_to { port ≤ 65533 }
    ensures runs { RunsFrom P.me (own_seen own) (L.state links.old) (L.state links.new) (T.state tapes.old) (T.state tapes.new) port result }
    ensures later { IsLater (L.state links.old) (L.state links.new) }
{
    let begun = match begin::<P, T>(alloc, own, tapes) {
        Ok(begun) => begun,
        Err(lost) => return Err(unbegun(lost)),
    };
    let Begun {
        hello,
        miner,
        undealt,
    } = begun;
    let served = serve_joined(alloc, miner, &hello, port, links, tapes)?;
    match text_served(alloc, undealt, served) {
        Ok(told) => Ok(told),
        Err(_) => Err(ServeErr::Node(NodeErr::Memory)),
    }
}
