// A value that is opened, block by block. What has room for states is `#[inline(never)]`: it is made anew each time.
ghost use Rattle.std.specs.Prelude.{◌≡◌, ◌≤◌, length, OnOk, IfOk};
ghost use Rattle.open_result.specs.Opening.{open_strand};
ghost use Rattle.open_result.specs.Steps.{left_masked, left_from_previous, left_from_next};
ghost use Rattle.block_steps.specs.Outcomes.{outcome_of, Holds, IsBeside};
ghost use Rattle.block_steps.specs.Pendings.{ring_left, progress_left, StandsThen, Shorter};

use crate::links::Links;
use crate::progress::Progress;
use crate::ring_block::RingBlock;
use proto_core::{BadMessage, Party, ShareRing};
use reshare::ShareWords;
use std::alloc::AllocError;

/// Sends the mask.
#[inline(never)]
pub fn begin<R: ShareRing, P: Party>(
    u: &[u64],
    words: &[u64],
    links: &mut Links,
) -> Result<RingBlock<R, P>, AllocError>
    requires short { length u.now ≤ 512 }
    requires drawn { length words.now ≡ length u.now }
    ensures same { IfOk result (λ to. outcome_of P.me links.new (ring_left R.ring P.me to)
        ≡ outcome_of P.me links.old (open_strand R.ring (length u.now) P.me u.now words.now)) }
    ensures unread { OnOk result (IsBeside links.old links.new) }
{
    let state = ShareWords::new(links.alloc(), u, words)?;
    links.to_next.push_words(words)?;
    Ok(RingBlock::OpenMasked(state))
}

/// Takes the previous miner's mask, and sends the new share to both others.
#[inline(never)]
pub fn masked<R: ShareRing, P: Party>(
    mut state: ShareWords,
    links: &mut Links,
) -> Result<Progress<RingBlock<R, P>>, AllocError>
    ensures same { IfOk result (λ to. outcome_of P.me links.new (progress_left (ring_left R.ring P.me) to)
        ≡ outcome_of P.me links.old (left_masked R.ring P.me state)) }
    ensures stands { IfOk result (λ to. StandsThen (ring_left R.ring P.me) P.me links.new to) }
    ensures falls { IfOk result (λ to. Shorter links.old links.new to) }
    ensures kept { OnOk result (Holds links.old links.new) }
{
    let Some(words) = links.from_previous.lent() else {
        return Ok(Progress::Stands(RingBlock::OpenMasked(state), None));
    };
    let (want, have) = (state.size(), words.len());
    if have != want {
        let cause = BadMessage::BadLength {
            want: want as u64,
            have: have as u64,
        };
        return Ok(Progress::Stands(RingBlock::OpenMasked(state), Some(cause)));
    }
    state.take_mask::<R>(words);
    links.from_previous.take();
    links.to_next.push_words(state.share())?;
    links.to_previous.push_words(state.share())?;
    Ok(Progress::Goes(RingBlock::OpenFromPrevious(state)))
}

/// Takes the previous miner's new share.
#[inline(never)]
pub fn from_previous<R: ShareRing, P: Party>(
    mut state: ShareWords,
    links: &mut Links,
) -> Result<Progress<RingBlock<R, P>>, AllocError>
    ensures same { IfOk result (λ to. outcome_of P.me links.new (progress_left (ring_left R.ring P.me) to)
        ≡ outcome_of P.me links.old (left_from_previous R.ring P.me state)) }
    ensures stands { IfOk result (λ to. StandsThen (ring_left R.ring P.me) P.me links.new to) }
    ensures falls { IfOk result (λ to. Shorter links.old links.new to) }
    ensures kept { OnOk result (Holds links.old links.new) }
{
    let Some(words) = links.from_previous.lent() else {
        return Ok(Progress::Stands(RingBlock::OpenFromPrevious(state), None));
    };
    let (want, have) = (state.size(), words.len());
    if have != want {
        let cause = BadMessage::BadLength {
            want: want as u64,
            have: have as u64,
        };
        return Ok(Progress::Stands(RingBlock::OpenFromPrevious(state), Some(cause)));
    }
    state.keep(words);
    links.from_previous.take();
    Ok(Progress::Goes(RingBlock::OpenFromNext(state)))
}

/// Takes the next miner's new share, and keeps the words that are opened.
#[inline(never)]
pub fn from_next<R: ShareRing, P: Party>(
    state: ShareWords,
    links: &mut Links,
) -> Result<Progress<RingBlock<R, P>>, AllocError>
    ensures same { IfOk result (λ to. outcome_of P.me links.new (progress_left (ring_left R.ring P.me) to)
        ≡ outcome_of P.me links.old (left_from_next R.ring P.me state)) }
    ensures stands { IfOk result (λ to. StandsThen (ring_left R.ring P.me) P.me links.new to) }
    ensures falls { IfOk result (λ to. Shorter links.old links.new to) }
    ensures kept { OnOk result (Holds links.old links.new) }
{
    let Some(words) = links.from_next.lent() else {
        return Ok(Progress::Stands(RingBlock::OpenFromNext(state), None));
    };
    let (want, have) = (state.size(), words.len());
    if have != want {
        let cause = BadMessage::BadLength {
            want: want as u64,
            have: have as u64,
        };
        return Ok(Progress::Stands(RingBlock::OpenFromNext(state), Some(cause)));
    }
    let opened = state.into_sum::<R>(words);
    links.from_next.take();
    links.opened.extend_from_slice(&opened)?;
    Ok(Progress::Made {
        first: opened,
        second: None,
    })
}
