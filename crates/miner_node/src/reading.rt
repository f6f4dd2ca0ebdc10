// A message from a peer.
ghost use Rattle.std.specs.Prelude.{◌≤◌};
ghost use Rattle.miner_node.specs.Answers.{ReadsMessage};

use crate::node_err::NodeErr;
use crate::transfers::recv_all;
use outside::Links;
use proto_core::Msg;
use wire::{read_header, read_words};

/// Reads the message of the next frame from a peer: its header, which is tested before more is read, and then its words.
pub(crate) fn read_message<L: Links>(links: &mut L, peer: u8) -> Result<Msg, NodeErr>
    requires from { 1 ≤ peer }
    requires to { peer ≤ 3 }
    ensures { ReadsMessage (L.state links.old) (L.state links.new) peer result }
{
    let mut header = [0; 5];
    recv_all(links, peer, &mut header)?;
    let count = read_header(&header)?;
    let mut body = [0; 16384];
    let words = &mut body[..8 * count as usize];
    recv_all(links, peer, words)?;
    Ok(read_words(count, words))
}
