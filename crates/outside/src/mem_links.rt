// Links in memory.
ghost use Rattle.std.specs.Prelude.{◌≡◌, ◌≢◌, ◌≤◌, ◌++◌, ◌∷◌, [], ℕ, length, take, drop, min, IfOk, OnOk, OnErr};
ghost use Rattle.outside.specs.LinkCall.{moves_of};
ghost use Rattle.outside.specs.Links.{gave, took};

use crate::fault_plan::FaultPlan;
use crate::mem_peer::MemPeer;
use crate::{FileErr, LinkCall, Links};
use std::alloc::{AllocError, Global};

/// Links in memory: what comes from each peer is set up before, and what it was sent is kept, as are the calls that moved bytes.
#[derive(Drop)]
pub struct MemLinks {
    alloc: Global,
    moves: Vec<LinkCall>,
    first: MemPeer,
    second: MemPeer,
    third: MemPeer,
    plan: FaultPlan,
}

impl MemLinks {
    ghost use Rattle.outside.specs.MemLinks.{links_moves, links_sent, links_coming, plan_in};
    ghost use Rattle.outside.specs.Plan.{fresh_plan};

    #[tactic(auto, using(crate::proofs::Peers::of_none))]
    /// Links from which no byte comes. The calls with these numbers fail, counted from 0.
    pub fn new(alloc: Global, fails: Vec<u64>) -> Self
        ensures no_moves { links_moves result ≡ [] }
        ensures none_sent { (p : ℕ) → links_sent result p ≡ [] }
        ensures none_coming { (p : ℕ) → links_coming result p ≡ [] }
        ensures plan { plan_in result ≡ fresh_plan fails }
    {
        MemLinks {
            alloc,
            moves: Vec::new(alloc),
            first: MemPeer::new(alloc),
            second: MemPeer::new(alloc),
            third: MemPeer::new(alloc),
            plan: FaultPlan::new(fails),
        }
    }

    /// How many calls were made, failed ones too.
    pub fn calls_made(&self) -> u64
        ensures { result ≡ (plan_in self.now).calls }
    {
        self.plan.calls()
    }

    /// Lets these bytes come from this peer, after those that were to come: it is no call of the links.
    #[tactic(auto, using(crate::proofs::Peers::peers))]
    pub fn arrive(&mut self, peer: u8, bytes: &[u8]) -> Result<(), AllocError>
        requires peer_from { 1 ≤ peer }
        requires peer_to { peer ≤ 3 }
        ensures ok { OnOk result (links_coming self.new peer ≡ links_coming self.old peer ++ bytes.now) }
        ensures others { (p : ℕ) → p ≢ peer → links_coming self.new p ≡ links_coming self.old p }
        ensures err { OnErr result (links_coming self.new ≡ links_coming self.old) }
        ensures moves { links_moves self.new ≡ links_moves self.old }
        ensures sent { links_sent self.new ≡ links_sent self.old }
        ensures plan { plan_in self.new ≡ plan_in self.old }
    {
        match peer {
            1 => self.first.arrive(bytes),
            2 => self.second.arrive(bytes),
            _ => self.third.arrive(bytes),
        }
    }

    /// All that this peer was sent: it is no call of the links.
    #[tactic(auto, using(crate::proofs::Peers::peers))]
    pub fn sent(&self, peer: u8) -> &[u8]
        requires peer_from { 1 ≤ peer }
        requires peer_to { peer ≤ 3 }
        ensures { result.now ≡ links_sent self.now peer }
    {
        match peer {
            1 => self.first.sent(),
            2 => self.second.sent(),
            _ => self.third.sent(),
        }
    }

    /// The calls that moved bytes, in order: it is no call of the links.
    pub fn moves(&self) -> &[LinkCall]
        ensures { moves_of result.now ≡ links_moves self.now }
    {
        &self.moves
    }

    // Keeps these bytes after those that this peer was sent.
    #[tactic(auto, using(crate::proofs::Peers::peers))]
    fn send_to(&mut self, peer: u8, bytes: &[u8]) -> Result<(), AllocError>
        requires peer_from { 1 ≤ peer }
        requires peer_to { peer ≤ 3 }
        ensures ok { OnOk result (links_sent self.new peer ≡ links_sent self.old peer ++ bytes.now) }
        ensures others { (p : ℕ) → p ≢ peer → links_sent self.new p ≡ links_sent self.old p }
        ensures err { OnErr result (links_sent self.new ≡ links_sent self.old) }
        ensures moves { links_moves self.new ≡ links_moves self.old }
        ensures coming { links_coming self.new ≡ links_coming self.old }
        ensures plan { plan_in self.new ≡ plan_in self.old }
    {
        match peer {
            1 => self.first.send(bytes),
            2 => self.second.send(bytes),
            _ => self.third.send(bytes),
        }
    }

    // Sends this peer the bytes, and keeps the call.
    fn give(&mut self, peer: u8, piece: &[u8]) -> Result<(), AllocError>
        requires peer_from { 1 ≤ peer }
        requires peer_to { peer ≤ 3 }
        ensures ok { OnOk result (links_sent self.new peer ≡ links_sent self.old peer ++ piece.now) }
        ensures called { OnOk result (links_moves self.new ≡ links_moves self.old ++ gave peer piece.now ∷ []) }
        ensures others { (p : ℕ) → p ≢ peer → links_sent self.new p ≡ links_sent self.old p }
        ensures err { OnErr result (links_sent self.new ≡ links_sent self.old) }
        ensures uncalled { OnErr result (links_moves self.new ≡ links_moves self.old) }
        ensures coming { links_coming self.new ≡ links_coming self.old }
        ensures plan { plan_in self.new ≡ plan_in self.old }
    {
        let bytes = Vec::from_slice(self.alloc, piece)?;
        self.moves.push(LinkCall::Gave { peer, bytes })?;
        match self.send_to(peer, piece) {
            Ok(()) => Ok(()),
            Err(e) => {
                self.moves.pop();
                Err(e)
            }
        }
    }

    // The next bytes from this peer, at most 7 at a time.
    #[tactic(auto, using(crate::proofs::Peers::peers))]
    fn next_of(&self, peer: u8, most: usize) -> &[u8]
        requires peer_from { 1 ≤ peer }
        requires peer_to { peer ≤ 3 }
        ensures { result.now ≡ take (min most 7) (links_coming self.now peer) }
    {
        match peer {
            1 => self.first.next(most),
            2 => self.second.next(most),
            _ => self.third.next(most),
        }
    }

    // So many bytes of this peer were taken.
    #[tactic(auto, using(crate::proofs::Peers::peers))]
    fn pass(&mut self, peer: u8, count: usize)
        requires peer_from { 1 ≤ peer }
        requires peer_to { peer ≤ 3 }
        requires there { count ≤ length (links_coming self.old peer) }
        ensures came { links_coming self.new peer ≡ drop count (links_coming self.old peer) }
        ensures others { (p : ℕ) → p ≢ peer → links_coming self.new p ≡ links_coming self.old p }
        ensures moves { links_moves self.new ≡ links_moves self.old }
        ensures sent { links_sent self.new ≡ links_sent self.old }
        ensures plan { plan_in self.new ≡ plan_in self.old }
    {
        match peer {
            1 => self.first.pass(count),
            2 => self.second.pass(count),
            _ => self.third.pass(count),
        }
    }

    // Takes the next bytes from this peer, and keeps the call.
    fn take_from(&mut self, peer: u8, into: &mut [u8]) -> Result<usize, AllocError>
        requires peer_from { 1 ≤ peer }
        requires peer_to { peer ≤ 3 }
        ensures most { IfOk result (λ k. k ≤ length into.old) }
        ensures count { IfOk result (λ k. k ≡ length (take (min (length into.old) 7) (links_coming self.old peer))) }
        ensures came { IfOk result (λ k. links_coming self.old peer ≡ take k into.new ++ links_coming self.new peer) }
        ensures called { IfOk result (λ k. links_moves self.new ≡ links_moves self.old ++ took peer (take k into.new) ∷ []) }
        ensures others { (p : ℕ) → p ≢ peer → links_coming self.new p ≡ links_coming self.old p }
        ensures err { OnErr result (links_coming self.new ≡ links_coming self.old) }
        ensures uncalled { OnErr result (links_moves self.new ≡ links_moves self.old) }
        ensures sent { links_sent self.new ≡ links_sent self.old }
        ensures plan { plan_in self.new ≡ plan_in self.old }
    {
        let bytes = Vec::from_slice(self.alloc, self.next_of(peer, into.len()))?;
        let count = bytes.len();
        into[..count].copy_from_slice(&bytes);
        self.moves.push(LinkCall::Took { peer, bytes })?;
        self.pass(peer, count);
        Ok(count)
    }
}

impl Links for MemLinks {
    ghost use Rattle.outside.specs.MemLinks.{links_state};

    ghost state = { links_state };

    fn connect(&mut self, me: u8, port: u16) -> Result<(), FileErr> {
        if self.plan.next_fails() {
            return Err(FileErr::Failed);
        }
        Ok(self.moves.push(LinkCall::Joined { me, port })?)
    }

    // At most 7 bytes at a time, so that a caller has to go on.
    fn send(&mut self, peer: u8, piece: &[u8]) -> Result<usize, FileErr> {
        if self.plan.next_fails() {
            return Err(FileErr::Failed);
        }
        let count = piece.len().min(7);
        self.give(peer, &piece[..count])?;
        Ok(count)
    }

    // At most 7 bytes at a time; a fault where none is left.
    fn recv(&mut self, peer: u8, into: &mut [u8]) -> Result<usize, FileErr> {
        if self.plan.next_fails() {
            return Err(FileErr::Failed);
        }
        if self.next_of(peer, 1).is_empty() {
            self.plan.raise();
            return Err(FileErr::Failed);
        }
        Ok(self.take_from(peer, into)?)
    }
}
