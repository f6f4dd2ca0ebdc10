// The links to the other peers, by their numbers 1 to 3.
ghost use Rattle.std.specs.Prelude.{◌≡◌, ◌<◌, ◌≤◌, true, length, take, IfOk, OnOk, OnErr};
ghost use Rattle.outside.specs.Causes.{HasCause, IsSteady};
ghost use Rattle.outside.specs.Links.{LinksState, SameBytes, SameLinks, OneMore, Sent, Came, IsDry, joined, gave, took};

use crate::FileErr;

/// The links to the other peers, by their numbers 1 to 3.
pub trait Links {
    ghost state: { Self → LinksState };

    /// Joins the peers: this is number `me`, and the pairs (1,2), (1,3) and (2,3) use `port` and the next two.
    fn connect(&mut self, me: u8, port: u16) -> Result<(), FileErr>
        requires me_from { 1 ≤ me }
        requires me_to { me ≤ 3 }
        requires port_from { 1 ≤ port }
        requires port_to { port ≤ 65533 }
        ensures moves_none { SameBytes (state self.old) (state self.new) }
        ensures called { OnOk result (OneMore (state self.old) (state self.new) (joined me port)) }
        ensures err { OnErr result (SameLinks (state self.old) (state self.new)) }
        ensures cause { HasCause (state self.old).faults (state self.new).faults result }
        ensures steady { (state self.old).steady ≡ true →
            IsSteady (state self.old).faults (state self.new).faults result ⊥ }
        ensures still { (state self.old).steady ≡ true → (state self.new).steady ≡ true };

    /// Sends some of the bytes, from the front, at least one where there is one.
    fn send(&mut self, peer: u8, piece: &[u8]) -> Result<usize, FileErr>
        requires peer_from { 1 ≤ peer }
        requires peer_to { peer ≤ 3 }
        ensures most { IfOk result (λ k. k ≤ length piece.now) }
        ensures some { IfOk result (λ k. 0 < length piece.now → 0 < k) }
        ensures ok { IfOk result (λ k. Sent (state self.old) (state self.new) peer (take k piece.now)) }
        ensures called { IfOk result (λ k. OneMore (state self.old) (state self.new) (gave peer (take k piece.now))) }
        ensures err { OnErr result (SameLinks (state self.old) (state self.new)) }
        ensures cause { HasCause (state self.old).faults (state self.new).faults result }
        ensures steady { (state self.old).steady ≡ true →
            IsSteady (state self.old).faults (state self.new).faults result ⊥ }
        ensures still { (state self.old).steady ≡ true → (state self.new).steady ≡ true };

    /// Puts the next bytes from this peer at the front of the slice, at least one where it has room for one.
    /// A link that is closed is a fault.
    fn recv(&mut self, peer: u8, into: &mut [u8]) -> Result<usize, FileErr>
        requires peer_from { 1 ≤ peer }
        requires peer_to { peer ≤ 3 }
        ensures most { IfOk result (λ k. k ≤ length into.old) }
        ensures some { IfOk result (λ k. 0 < length into.old → 0 < k) }
        ensures ok { IfOk result (λ k. Came (state self.old) (state self.new) peer (take k into.new)) }
        ensures called { IfOk result (λ k. OneMore (state self.old) (state self.new) (took peer (take k into.new))) }
        ensures err { OnErr result (SameLinks (state self.old) (state self.new)) }
        ensures cause { HasCause (state self.old).faults (state self.new).faults result }
        ensures steady { (state self.old).steady ≡ true →
            IsSteady (state self.old).faults (state self.new).faults result (IsDry (state self.old) peer) }
        ensures still { (state self.old).steady ≡ true → (state self.new).steady ≡ true };
}
