// Numbers split into two words each, block by block. What has room for states is `#[inline(never)]`: it is made anew each time.
ghost use Rattle.std.specs.Prelude.{◌≡◌, ◌≤◌, false, length, OnOk, IfOk};
ghost use Rattle.proto_core.specs.declared.party.Number.TheVariants as number;
ghost use Rattle.split_share.specs.Splitting.{split_draws};
ghost use Rattle.split_share.specs.SplitStrand.{split_strand, awaits12, awaits13};
ghost use Rattle.block_steps.specs.Dealt.{splitting_left};
ghost use Rattle.block_steps.specs.Outcomes.{outcome_of, AwaitsOn, Holds, IsBeside};
ghost use Rattle.block_steps.specs.Pendings.{progress_left, StandsThen, Shorter, HasBegun};

use crate::links::Links;
use crate::progress::Progress;
use proto_core::{BadMessage, Link, Number, Party};
use split_share::SplitWords;
use std::alloc::AllocError;
use std::marker::{Model, PhantomData};

/// A miner's part in a block that is split, by miner. The first one deals, and awaits no message.
#[derive(Drop)]
pub enum Splitting {
    /// The second miner awaits what the first one deals.
    Two(SplitWords),
    /// The third miner awaits what the first one deals.
    Three(SplitWords),
}

/// The part of the miner `P` in a block that is split.
#[derive(Drop)]
pub struct Splits<P: Party> {
    state: Splitting,
    of: PhantomData<P>,
}

impl<P: Party> Model for Splits<P> {
    ghost use Rattle.std.specs.Prelude.{◌≡◌};
    ghost use Rattle.block_steps.specs.Dealt.{splits_at};
    ghost use Rattle.block_steps.specs.declared.splitting.Splitting.{Splitting};

    ghost Value = { Splitting };

    ghost view = { λ c. c.state };

    ghost invariant = { λ c. P.me ≡ splits_at c.state };
}

impl<P: Party> Splits<P> {
    /// As far as the oldest message leads. Fails where memory runs out.
    pub fn step(self, links: &mut Links) -> Result<Progress<Splits<P>>, AllocError>
        ensures same { IfOk result (λ to. outcome_of P.me links.new (progress_left splitting_left to)
            ≡ outcome_of P.me links.old (splitting_left self)) }
        ensures stands { IfOk result (λ to. StandsThen splitting_left P.me links.new to) }
        ensures falls { IfOk result (λ to. Shorter links.old links.new to) }
        ensures kept { OnOk result (Holds links.old links.new) }
    {
        match self.state {
            Splitting::Two(state) => got12(state, links),
            Splitting::Three(state) => got13(state, links),
        }
    }

    /// The link on which a message is awaited.
    pub fn awaits(&self) -> Link
        ensures { AwaitsOn result (splitting_left self.now) }
    {
        match &self.state {
            Splitting::Two(_) => Link::Link12,
            Splitting::Three(_) => Link::Link13,
        }
    }
}

/// Begins a block: the first miner deals to both others, and is through.
#[inline(never)]
pub fn begin<P: Party>(
    negated: bool,
    u: &[u64],
    words: &[u64],
    links: &mut Links,
) -> Result<Progress<Splits<P>>, AllocError>
    requires short { length u.now ≤ 512 }
    requires drawn { length words.now ≡ split_draws (length u.now) P.me }
    ensures same { IfOk result (λ to. outcome_of P.me links.new (progress_left splitting_left to)
        ≡ outcome_of P.me links.old (split_strand negated (length u.now) P.me u.now words.now)) }
    ensures begins { IfOk result HasBegun }
    ensures unread { OnOk result (IsBeside links.old links.new) }
{
    match P::number() {
        Number::One => deal(u, words, links),
        Number::Two => Ok(Progress::Goes(Splits {
            state: Splitting::Two(SplitWords::begin(links.alloc(), u, negated)?),
            of: PhantomData,
        })),
        Number::Three => Ok(Progress::Goes(Splits {
            state: Splitting::Three(SplitWords::begin(links.alloc(), u, negated)?),
            of: PhantomData,
        })),
    }
}

/// The first miner's part, which is the same where the splitting is negated.
#[inline(never)]
fn deal<P: Party>(
    u: &[u64],
    words: &[u64],
    links: &mut Links,
) -> Result<Progress<Splits<P>>, AllocError>
    requires first { P.me ≡ number.One }
    requires short { length u.now ≤ 512 }
    requires drawn { length words.now ≡ length u.now }
    ensures same { IfOk result (λ to. outcome_of P.me links.new (progress_left splitting_left to)
        ≡ outcome_of P.me links.old (split_strand false (length u.now) number.One u.now words.now)) }
    ensures begins { IfOk result HasBegun }
    ensures unread { OnOk result (IsBeside links.old links.new) }
{
    let alloc = links.alloc();
    let (x, y) = SplitWords::deal(alloc, u, words, &mut links.to_next, &mut links.to_previous)?;
    Ok(Progress::Made {
        first: x,
        second: Some(y),
    })
}

/// The second miner takes its words.
#[inline(never)]
fn got12<P: Party>(state: SplitWords, links: &mut Links) -> Result<Progress<Splits<P>>, AllocError>
    requires second { P.me ≡ number.Two }
    ensures same { IfOk result (λ to. outcome_of P.me links.new (progress_left splitting_left to)
        ≡ outcome_of P.me links.old (awaits12 (length state.share) state)) }
    ensures stands { IfOk result (λ to. StandsThen splitting_left P.me links.new to) }
    ensures falls { IfOk result (λ to. Shorter links.old links.new to) }
    ensures kept { OnOk result (Holds links.old links.new) }
{
    let alloc = links.alloc();
    let Some(words) = links.from_previous.lent() else {
        return Ok(Progress::Stands(
            Splits {
                state: Splitting::Two(state),
                of: PhantomData,
            },
            None,
        ));
    };
    let (want, have) = (state.size(), words.len());
    if have != want {
        let cause = BadMessage::BadLength {
            want: want as u64,
            have: have as u64,
        };
        return Ok(Progress::Stands(
            Splits {
                state: Splitting::Two(state),
                of: PhantomData,
            },
            Some(cause),
        ));
    }
    let (x, y) = state.got12(alloc, words)?;
    links.from_previous.take();
    Ok(Progress::Made {
        first: x,
        second: Some(y),
    })
}

/// The third miner takes its words.
#[inline(never)]
fn got13<P: Party>(state: SplitWords, links: &mut Links) -> Result<Progress<Splits<P>>, AllocError>
    requires third { P.me ≡ number.Three }
    ensures same { IfOk result (λ to. outcome_of P.me links.new (progress_left splitting_left to)
        ≡ outcome_of P.me links.old (awaits13 (length state.share) state)) }
    ensures stands { IfOk result (λ to. StandsThen splitting_left P.me links.new to) }
    ensures falls { IfOk result (λ to. Shorter links.old links.new to) }
    ensures kept { OnOk result (Holds links.old links.new) }
{
    let alloc = links.alloc();
    let Some(words) = links.from_next.lent() else {
        return Ok(Progress::Stands(
            Splits {
                state: Splitting::Three(state),
                of: PhantomData,
            },
            None,
        ));
    };
    let (want, have) = (state.size(), words.len());
    if have != want {
        let cause = BadMessage::BadLength {
            want: want as u64,
            have: have as u64,
        };
        return Ok(Progress::Stands(
            Splits {
                state: Splitting::Three(state),
                of: PhantomData,
            },
            Some(cause),
        ));
    }
    let (x, y) = state.got13(alloc, words)?;
    links.from_next.take();
    Ok(Progress::Made {
        first: x,
        second: Some(y),
    })
}
