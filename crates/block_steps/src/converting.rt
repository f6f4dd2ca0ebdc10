// Truth values turned into numbers, block by block. What has room for states is `#[inline(never)]`: it is made anew each time.
ghost use Rattle.std.specs.Prelude.{◌≡◌, ◌≤◌, ◌*◌, length, OnOk, IfOk};
ghost use Rattle.proto_core.specs.declared.party.Number.TheVariants as number;
ghost use Rattle.share_convert.specs.Converting.{conv_draws};
ghost use Rattle.share_convert.specs.ConvStrand.{conv_strand, awaits31, awaits12, awaits32, awaits13, awaits23};
ghost use Rattle.block_steps.specs.Dealt.{converting_left};
ghost use Rattle.block_steps.specs.Outcomes.{outcome_of, AwaitsOn, Holds, IsBeside};
ghost use Rattle.block_steps.specs.Pendings.{progress_left, StandsThen, Shorter};

use crate::links::Links;
use crate::progress::Progress;
use proto_core::{BadMessage, Link, Number, Party};
use share_convert::{ConvWords, First, Second, Sent, check_words};
use std::alloc::AllocError;
use std::marker::{Model, PhantomData};

/// A miner's part in a block that is converted, by miner and by the message that is awaited.
#[derive(Drop)]
pub enum Converting {
    /// The first miner has dealt, and awaits the third one's mask.
    One(ConvWords<Sent>),
    /// The second miner awaits what the first one deals.
    TwoFirst(ConvWords<First>),
    /// The second miner awaits the third one's bits.
    TwoSecond(ConvWords<Second>),
    /// The third miner awaits what the first one deals.
    ThreeFirst(ConvWords<First>),
    /// The third miner awaits the second one's bits and mask.
    ThreeSecond(ConvWords<Second>),
}

/// The part of the miner `P` in a block that is converted.
#[derive(Drop)]
pub struct Conversion<P: Party> {
    state: Converting,
    of: PhantomData<P>,
}

impl<P: Party> Model for Conversion<P> {
    ghost use Rattle.std.specs.Prelude.{◌≡◌};
    ghost use Rattle.block_steps.specs.Dealt.{converts_at};
    ghost use Rattle.block_steps.specs.declared.converting.Converting.{Converting};

    ghost Value = { Converting };

    ghost view = { λ c. c.state };

    ghost invariant = { λ c. P.me ≡ converts_at c.state };
}

impl<P: Party> Conversion<P> {
    /// As far as the oldest message leads. Fails where memory runs out.
    pub fn step(self, links: &mut Links) -> Result<Progress<Conversion<P>>, AllocError>
        ensures same { IfOk result (λ to. outcome_of P.me links.new (progress_left converting_left to)
            ≡ outcome_of P.me links.old (converting_left self)) }
        ensures stands { IfOk result (λ to. StandsThen converting_left P.me links.new to) }
        ensures falls { IfOk result (λ to. Shorter links.old links.new to) }
        ensures kept { OnOk result (Holds links.old links.new) }
    {
        match self.state {
            Converting::One(state) => got31(state, links),
            Converting::TwoFirst(state) => got12(state, links),
            Converting::TwoSecond(state) => got32(state, links),
            Converting::ThreeFirst(state) => got13(state, links),
            Converting::ThreeSecond(state) => got23(state, links),
        }
    }

    /// The link on which a message is awaited.
    pub fn awaits(&self) -> Link
        ensures { AwaitsOn result (converting_left self.now) }
    {
        match &self.state {
            Converting::One(_) => Link::Link31,
            Converting::TwoFirst(_) => Link::Link12,
            Converting::TwoSecond(_) => Link::Link32,
            Converting::ThreeFirst(_) => Link::Link13,
            Converting::ThreeSecond(_) => Link::Link23,
        }
    }
}

/// Begins a block: the first miner deals to both others, and the third one's mask goes to the first.
#[inline(never)]
pub fn begin<P: Party>(
    u: &[u64],
    words: &[u64],
    links: &mut Links,
) -> Result<Conversion<P>, AllocError>
    requires short { length u.now ≤ 512 }
    requires drawn { length words.now ≡ conv_draws (length u.now) P.me }
    ensures same { IfOk result (λ to. outcome_of P.me links.new (converting_left to)
        ≡ outcome_of P.me links.old (conv_strand (length u.now) P.me u.now words.now)) }
    ensures unread { OnOk result (IsBeside links.old links.new) }
{
    match P::number() {
        Number::One => deal(u, words, links),
        Number::Two => Ok(Conversion {
            state: Converting::TwoFirst(ConvWords::<First>::begin(links.alloc(), u, words)?),
            of: PhantomData,
        }),
        Number::Three => send_mask(u, words, links),
    }
}

/// The first miner's beginning.
#[inline(never)]
fn deal<P: Party>(u: &[u64], words: &[u64], links: &mut Links) -> Result<Conversion<P>, AllocError>
    requires first { P.me ≡ number.One }
    requires short { length u.now ≤ 512 }
    requires drawn { length words.now ≡ 4 * length u.now }
    ensures same { IfOk result (λ to. outcome_of P.me links.new (converting_left to)
        ≡ outcome_of P.me links.old (conv_strand (length u.now) number.One u.now words.now)) }
    ensures unread { OnOk result (IsBeside links.old links.new) }
{
    let alloc = links.alloc();
    let state = ConvWords::<Sent>::deal(
        alloc,
        u,
        words,
        &mut links.to_next,
        &mut links.to_previous,
    )?;
    Ok(Conversion {
        state: Converting::One(state),
        of: PhantomData,
    })
}

/// The third miner's beginning.
#[inline(never)]
fn send_mask<P: Party>(
    u: &[u64],
    words: &[u64],
    links: &mut Links,
) -> Result<Conversion<P>, AllocError>
    requires third { P.me ≡ number.Three }
    requires short { length u.now ≤ 512 }
    requires drawn { length words.now ≡ length u.now }
    ensures same { IfOk result (λ to. outcome_of P.me links.new (converting_left to)
        ≡ outcome_of P.me links.old (conv_strand (length u.now) number.Three u.now words.now)) }
    ensures unread { OnOk result (IsBeside links.old links.new) }
{
    let state = ConvWords::<First>::begin(links.alloc(), u, words)?;
    links.to_next.push_words(words)?;
    Ok(Conversion {
        state: Converting::ThreeFirst(state),
        of: PhantomData,
    })
}

/// The first miner takes the third one's mask.
#[inline(never)]
fn got31<P: Party>(
    state: ConvWords<Sent>,
    links: &mut Links,
) -> Result<Progress<Conversion<P>>, AllocError>
    requires first { P.me ≡ number.One }
    ensures same { IfOk result (λ to. outcome_of P.me links.new (progress_left converting_left to)
        ≡ outcome_of P.me links.old (awaits31 (length state.mask) state)) }
    ensures stands { IfOk result (λ to. StandsThen converting_left P.me links.new to) }
    ensures falls { IfOk result (λ to. Shorter links.old links.new to) }
    ensures kept { OnOk result (Holds links.old links.new) }
{
    let Some(words) = links.from_previous.lent() else {
        return Ok(Progress::Stands(
            Conversion {
                state: Converting::One(state),
                of: PhantomData,
            },
            None,
        ));
    };
    let (want, have) = (state.size(), words.len());
    if have != want {
        let cause = BadMessage::BadLength {
            want: want as u64,
            have: have as u64,
        };
        return Ok(Progress::Stands(
            Conversion {
                state: Converting::One(state),
                of: PhantomData,
            },
            Some(cause),
        ));
    }
    let share = state.got31(words);
    links.from_previous.take();
    Ok(Progress::Made {
        first: share,
        second: None,
    })
}

/// The second miner takes what the first one dealt, and sends its bits and mask.
#[inline(never)]
fn got12<P: Party>(
    state: ConvWords<First>,
    links: &mut Links,
) -> Result<Progress<Conversion<P>>, AllocError>
    requires second { P.me ≡ number.Two }
    ensures same { IfOk result (λ to. outcome_of P.me links.new (progress_left converting_left to)
        ≡ outcome_of P.me links.old (awaits12 (length state.mask) state)) }
    ensures stands { IfOk result (λ to. StandsThen converting_left P.me links.new to) }
    ensures falls { IfOk result (λ to. Shorter links.old links.new to) }
    ensures kept { OnOk result (Holds links.old links.new) }
{
    let alloc = links.alloc();
    let Some(words) = links.from_previous.lent() else {
        return Ok(Progress::Stands(
            Conversion {
                state: Converting::TwoFirst(state),
                of: PhantomData,
            },
            None,
        ));
    };
    let n = state.size();
    if let Err(cause) = check_words(words, 3 * n, n, n) {
        return Ok(Progress::Stands(
            Conversion {
                state: Converting::TwoFirst(state),
                of: PhantomData,
            },
            Some(cause),
        ));
    }
    let state = state.got12(alloc, words, &mut links.to_next)?;
    links.from_previous.take();
    Ok(Progress::Goes(Conversion {
        state: Converting::TwoSecond(state),
        of: PhantomData,
    }))
}

/// The second miner takes the third one's bits.
#[inline(never)]
fn got32<P: Party>(
    state: ConvWords<Second>,
    links: &mut Links,
) -> Result<Progress<Conversion<P>>, AllocError>
    requires second { P.me ≡ number.Two }
    ensures same { IfOk result (λ to. outcome_of P.me links.new (progress_left converting_left to)
        ≡ outcome_of P.me links.old (awaits32 (length state.mask) state)) }
    ensures stands { IfOk result (λ to. StandsThen converting_left P.me links.new to) }
    ensures falls { IfOk result (λ to. Shorter links.old links.new to) }
    ensures kept { OnOk result (Holds links.old links.new) }
{
    let Some(words) = links.from_next.lent() else {
        return Ok(Progress::Stands(
            Conversion {
                state: Converting::TwoSecond(state),
                of: PhantomData,
            },
            None,
        ));
    };
    let n = state.size();
    if let Err(cause) = check_words(words, n, 0, n) {
        return Ok(Progress::Stands(
            Conversion {
                state: Converting::TwoSecond(state),
                of: PhantomData,
            },
            Some(cause),
        ));
    }
    let share = state.got32(words);
    links.from_next.take();
    Ok(Progress::Made {
        first: share,
        second: None,
    })
}

/// The third miner takes what the first one dealt, and sends its bits.
#[inline(never)]
fn got13<P: Party>(
    state: ConvWords<First>,
    links: &mut Links,
) -> Result<Progress<Conversion<P>>, AllocError>
    requires third { P.me ≡ number.Three }
    ensures same { IfOk result (λ to. outcome_of P.me links.new (progress_left converting_left to)
        ≡ outcome_of P.me links.old (awaits13 (length state.mask) state)) }
    ensures stands { IfOk result (λ to. StandsThen converting_left P.me links.new to) }
    ensures falls { IfOk result (λ to. Shorter links.old links.new to) }
    ensures kept { OnOk result (Holds links.old links.new) }
{
    let alloc = links.alloc();
    let Some(words) = links.from_next.lent() else {
        return Ok(Progress::Stands(
            Conversion {
                state: Converting::ThreeFirst(state),
                of: PhantomData,
            },
            None,
        ));
    };
    let n = state.size();
    if let Err(cause) = check_words(words, 2 * n, n, n) {
        return Ok(Progress::Stands(
            Conversion {
                state: Converting::ThreeFirst(state),
                of: PhantomData,
            },
            Some(cause),
        ));
    }
    let state = state.got13(alloc, words, &mut links.to_previous)?;
    links.from_next.take();
    Ok(Progress::Goes(Conversion {
        state: Converting::ThreeSecond(state),
        of: PhantomData,
    }))
}

/// The third miner takes the second one's bits and mask.
#[inline(never)]
fn got23<P: Party>(
    state: ConvWords<Second>,
    links: &mut Links,
) -> Result<Progress<Conversion<P>>, AllocError>
    requires third { P.me ≡ number.Three }
    ensures same { IfOk result (λ to. outcome_of P.me links.new (progress_left converting_left to)
        ≡ outcome_of P.me links.old (awaits23 (length state.mask) state)) }
    ensures stands { IfOk result (λ to. StandsThen converting_left P.me links.new to) }
    ensures falls { IfOk result (λ to. Shorter links.old links.new to) }
    ensures kept { OnOk result (Holds links.old links.new) }
{
    let Some(words) = links.from_previous.lent() else {
        return Ok(Progress::Stands(
            Conversion {
                state: Converting::ThreeSecond(state),
                of: PhantomData,
            },
            None,
        ));
    };
    let n = state.size();
    if let Err(cause) = check_words(words, 2 * n, 0, n) {
        return Ok(Progress::Stands(
            Conversion {
                state: Converting::ThreeSecond(state),
                of: PhantomData,
            },
            Some(cause),
        ));
    }
    let share = state.got23(words);
    links.from_previous.take();
    Ok(Progress::Made {
        first: share,
        second: None,
    })
}
