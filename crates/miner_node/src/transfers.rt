// Bytes to a peer and from it, as many as there are in a slice.
ghost use Rattle.std.specs.Prelude.{◌≤◌};
ghost use Rattle.miner_node.specs.Transfers.{SendsAll, FillsAll};

use crate::node_err::NodeErr;
use outside::Links;

/// Sends all the bytes to a peer, or a front of them where the links fail or have no memory.
pub(crate) fn send_all<L: Links>(links: &mut L, peer: u8, bytes: &[u8]) -> Result<(), NodeErr>
    requires from { 1 ≤ peer }
    requires to { peer ≤ 3 }
    ensures { SendsAll (L.state links.old) (L.state links.new) peer bytes.now result }
{
    let mut done = 0;
    while done < bytes.len() {
        done += links.send(peer, &bytes[done..])?;
    }
    Ok(())
}

/// Fills the slice with the next bytes from a peer, or its front where the links fail.
pub(crate) fn recv_all<L: Links>(links: &mut L, peer: u8, into: &mut [u8]) -> Result<(), NodeErr>
    requires from { 1 ≤ peer }
    requires to { peer ≤ 3 }
    ensures { FillsAll (L.state links.old) (L.state links.new) peer into.new result }
{
    let mut done = 0;
    while done < into.len() {
        done += links.recv(peer, &mut into[done..])?;
    }
    Ok(())
}
