ghost use Rattle.std.specs.Prelude.{◌≡◌, OnOk, IfOk};
ghost use Rattle.block_steps.specs.Outcomes.{outcome_of, AwaitsOn, Holds};
ghost use Rattle.block_steps.specs.Pendings.{ring_left, progress_left, StandsThen, Shorter};

use crate::links::Links;
use crate::progress::Progress;
use crate::{multiplying, opening, resharing};
use lane_kernel::LaneRing;
use multiply::MulWords;
use proto_core::{Link, Party};
use reshare::ShareWords;
use std::alloc::AllocError;
use std::marker::PhantomData;

/// A miner's part in a block of a protocol that is for any ring, by the message that is awaited.
///
/// All words are in vectors: what hands a state on moves a few pointers.
#[derive(Drop)]
pub enum RingBlock<R, P> {
    /// Of a product: the previous miner's masks.
    MulMasked(MulWords),
    /// Of a product: the previous miner's factors.
    MulCrossed(MulWords),
    /// Of an opening: the previous miner's mask.
    OpenMasked(ShareWords),
    /// Of an opening: the previous miner's new share.
    OpenFromPrevious(ShareWords),
    /// Of an opening: the next miner's new share.
    OpenFromNext(ShareWords),
    /// Of a value that is shared anew: the previous miner's mask.
    Resharing(ShareWords, PhantomData<(R, P)>),
}

impl<R: LaneRing, P: Party> RingBlock<R, P> {
    /// As far as the oldest message leads. Fails where memory runs out.
    pub fn step(self, links: &mut Links) -> Result<Progress<RingBlock<R, P>>, AllocError>
        ensures same { IfOk result (λ to. outcome_of P.me links.new (progress_left (ring_left R.ring P.me) to)
            ≡ outcome_of P.me links.old (ring_left R.ring P.me self)) }
        ensures stands { IfOk result (λ to. StandsThen (ring_left R.ring P.me) P.me links.new to) }
        ensures falls { IfOk result (λ to. Shorter links.old links.new to) }
        ensures kept { OnOk result (Holds links.old links.new) }
    {
        match self {
            RingBlock::MulMasked(state) => multiplying::masked(state, links),
            RingBlock::MulCrossed(state) => multiplying::crossed(state, links),
            RingBlock::OpenMasked(state) => opening::masked(state, links),
            RingBlock::OpenFromPrevious(state) => opening::from_previous(state, links),
            RingBlock::OpenFromNext(state) => opening::from_next(state, links),
            RingBlock::Resharing(state, _) => resharing::sent(state, links),
        }
    }

    /// The link on which a message is awaited.
    pub fn awaits(&self) -> Link
        ensures { AwaitsOn result (ring_left R.ring P.me self.now) }
    {
        match self {
            RingBlock::OpenFromNext(_) => P::number().next().link_to_previous(),
            _ => P::number().previous().link_to_next(),
        }
    }
}
