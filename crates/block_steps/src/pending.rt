ghost use Rattle.std.specs.Prelude.{◌≡◌, OnOk, IfOk};
ghost use Rattle.proto_core.specs.Rings.{add_ring, xor_ring};
ghost use Rattle.block_steps.specs.Dealt.{converting_left, splitting_left};
ghost use Rattle.block_steps.specs.Outcomes.{outcome_of, AwaitsOn, Holds};
ghost use Rattle.block_steps.specs.Pendings.{ring_left, pending_left, progress_left, StandsThen, Shorter};

use crate::converting::Conversion;
use crate::links::Links;
use crate::progress::Progress;
use crate::ring_block::RingBlock;
use crate::splitting::Splits;
use proto_core::{AddRing, Link, Party, XorRing};
use std::alloc::AllocError;

/// A miner's part in a block of an exchange, which waits for a message.
#[derive(Drop)]
pub enum Pending<P: Party> {
    /// A product, opening or resharing modulo 2^64.
    Numbers(RingBlock<AddRing, P>),
    /// A product, opening or resharing by xor.
    Bits(RingBlock<XorRing, P>),
    Conversion(Conversion<P>),
    Splitting(Splits<P>),
}

impl<P: Party> Pending<P> {
    /// As far as the oldest message of the link leads on which one is awaited. A message that doesn't fit stays.
    ///
    /// Fails where memory runs out: the block is lost then, and so may be a part of what it sent.
    pub fn step(self, links: &mut Links) -> Result<Progress<Pending<P>>, AllocError>
        ensures same { IfOk result (λ to. outcome_of P.me links.new (progress_left (pending_left P.me) to)
            ≡ outcome_of P.me links.old (pending_left P.me self)) }
        ensures stands { IfOk result (λ to. StandsThen (pending_left P.me) P.me links.new to) }
        ensures falls { IfOk result (λ to. Shorter links.old links.new to) }
        ensures kept { OnOk result (Holds links.old links.new) }
    {
        match self {
            Pending::Numbers(block) => step_numbers(block, links),
            Pending::Bits(block) => step_bits(block, links),
            Pending::Conversion(state) => step_conversion(state, links),
            Pending::Splitting(state) => step_splitting(state, links),
        }
    }

    /// The link on which a message is awaited.
    pub fn awaits(&self) -> Link
        ensures { AwaitsOn result (pending_left P.me self.now) }
    {
        match self {
            Pending::Numbers(block) => block.awaits(),
            Pending::Bits(block) => block.awaits(),
            Pending::Conversion(state) => state.awaits(),
            Pending::Splitting(state) => state.awaits(),
        }
    }
}

fn step_numbers<P: Party>(
    block: RingBlock<AddRing, P>,
    links: &mut Links,
) -> Result<Progress<Pending<P>>, AllocError>
    ensures same { IfOk result (λ to. outcome_of P.me links.new (progress_left (pending_left P.me) to)
        ≡ outcome_of P.me links.old (ring_left add_ring P.me block)) }
    ensures stands { IfOk result (λ to. StandsThen (pending_left P.me) P.me links.new to) }
    ensures falls { IfOk result (λ to. Shorter links.old links.new to) }
    ensures kept { OnOk result (Holds links.old links.new) }
{
    Ok(match block.step(links)? {
        Progress::Stands(block, cause) => Progress::Stands(Pending::Numbers(block), cause),
        Progress::Goes(block) => Progress::Goes(Pending::Numbers(block)),
        Progress::Made { first, second } => Progress::Made { first, second },
    })
}

fn step_bits<P: Party>(
    block: RingBlock<XorRing, P>,
    links: &mut Links,
) -> Result<Progress<Pending<P>>, AllocError>
    ensures same { IfOk result (λ to. outcome_of P.me links.new (progress_left (pending_left P.me) to)
        ≡ outcome_of P.me links.old (ring_left xor_ring P.me block)) }
    ensures stands { IfOk result (λ to. StandsThen (pending_left P.me) P.me links.new to) }
    ensures falls { IfOk result (λ to. Shorter links.old links.new to) }
    ensures kept { OnOk result (Holds links.old links.new) }
{
    Ok(match block.step(links)? {
        Progress::Stands(block, cause) => Progress::Stands(Pending::Bits(block), cause),
        Progress::Goes(block) => Progress::Goes(Pending::Bits(block)),
        Progress::Made { first, second } => Progress::Made { first, second },
    })
}

fn step_conversion<P: Party>(
    state: Conversion<P>,
    links: &mut Links,
) -> Result<Progress<Pending<P>>, AllocError>
    ensures same { IfOk result (λ to. outcome_of P.me links.new (progress_left (pending_left P.me) to)
        ≡ outcome_of P.me links.old (converting_left state)) }
    ensures stands { IfOk result (λ to. StandsThen (pending_left P.me) P.me links.new to) }
    ensures falls { IfOk result (λ to. Shorter links.old links.new to) }
    ensures kept { OnOk result (Holds links.old links.new) }
{
    Ok(match state.step(links)? {
        Progress::Stands(state, cause) => Progress::Stands(Pending::Conversion(state), cause),
        Progress::Goes(state) => Progress::Goes(Pending::Conversion(state)),
        Progress::Made { first, second } => Progress::Made { first, second },
    })
}

fn step_splitting<P: Party>(
    state: Splits<P>,
    links: &mut Links,
) -> Result<Progress<Pending<P>>, AllocError>
    ensures same { IfOk result (λ to. outcome_of P.me links.new (progress_left (pending_left P.me) to)
        ≡ outcome_of P.me links.old (splitting_left state)) }
    ensures stands { IfOk result (λ to. StandsThen (pending_left P.me) P.me links.new to) }
    ensures falls { IfOk result (λ to. Shorter links.old links.new to) }
    ensures kept { OnOk result (Holds links.old links.new) }
{
    Ok(match state.step(links)? {
        Progress::Stands(state, cause) => Progress::Stands(Pending::Splitting(state), cause),
        Progress::Goes(state) => Progress::Goes(Pending::Splitting(state)),
        Progress::Made { first, second } => Progress::Made { first, second },
    })
}
