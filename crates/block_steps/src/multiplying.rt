// A product, block by block. What has room for states is `#[inline(never)]`: it is made anew each time.
ghost use Rattle.std.specs.Prelude.{◌≡◌, ◌≤◌, ◌*◌, length, OnOk, IfOk};
ghost use Rattle.multiply.specs.MulStrand.{mul_strand, mul_masked, mul_crossed};
ghost use Rattle.block_steps.specs.Outcomes.{outcome_of, Holds, IsBeside};
ghost use Rattle.block_steps.specs.Pendings.{ring_left, progress_left, StandsThen, Shorter};

use crate::links::Links;
use crate::progress::Progress;
use crate::ring_block::RingBlock;
use lane_kernel::LaneRing;
use multiply::MulWords;
use proto_core::{BadMessage, Party};
use std::alloc::AllocError;

/// Sends the masks.
#[inline(never)]
pub fn begin<R: LaneRing, P: Party>(
    u: &[u64],
    v: &[u64],
    words: &[u64],
    links: &mut Links,
) -> Result<RingBlock<R, P>, AllocError>
    requires short { length u.now ≤ 512 }
    requires second { length v.now ≡ length u.now }
    requires drawn { length words.now ≡ 3 * length u.now }
    ensures same { IfOk result (λ to. outcome_of P.me links.new (ring_left R.ring P.me to)
        ≡ outcome_of P.me links.old (mul_strand R.ring (length u.now) P.me u.now v.now words.now)) }
    ensures unread { OnOk result (IsBeside links.old links.new) }
{
    let state = MulWords::masked::<R>(links.alloc(), u, v, words)?;
    links.to_next.push_words(words)?;
    Ok(RingBlock::MulMasked(state))
}

/// Takes the previous miner's masks.
#[inline(never)]
pub fn masked<R: LaneRing, P: Party>(
    mut state: MulWords,
    links: &mut Links,
) -> Result<Progress<RingBlock<R, P>>, AllocError>
    ensures same { IfOk result (λ to. outcome_of P.me links.new (progress_left (ring_left R.ring P.me) to)
        ≡ outcome_of P.me links.old (mul_masked R.ring (length state.mask) P.me state)) }
    ensures stands { IfOk result (λ to. StandsThen (ring_left R.ring P.me) P.me links.new to) }
    ensures falls { IfOk result (λ to. Shorter links.old links.new to) }
    ensures kept { OnOk result (Holds links.old links.new) }
{
    let Some(words) = links.from_previous.lent() else {
        return Ok(Progress::Stands(RingBlock::MulMasked(state), None));
    };
    let (want, have) = (3 * state.size(), words.len());
    if have != want {
        let cause = BadMessage::BadLength {
            want: want as u64,
            have: have as u64,
        };
        return Ok(Progress::Stands(RingBlock::MulMasked(state), Some(cause)));
    }
    state.cross::<R>(words);
    links.from_previous.take();
    let (u, v) = state.factors();
    links.to_next.push_two(u, v)?;
    Ok(Progress::Goes(RingBlock::MulCrossed(state)))
}

/// Takes the previous miner's factors.
#[inline(never)]
pub fn crossed<R: LaneRing, P: Party>(
    state: MulWords,
    links: &mut Links,
) -> Result<Progress<RingBlock<R, P>>, AllocError>
    ensures same { IfOk result (λ to. outcome_of P.me links.new (progress_left (ring_left R.ring P.me) to)
        ≡ outcome_of P.me links.old (mul_crossed R.ring (length state.mask) P.me state)) }
    ensures stands { IfOk result (λ to. StandsThen (ring_left R.ring P.me) P.me links.new to) }
    ensures falls { IfOk result (λ to. Shorter links.old links.new to) }
    ensures kept { OnOk result (Holds links.old links.new) }
{
    let Some(words) = links.from_previous.lent() else {
        return Ok(Progress::Stands(RingBlock::MulCrossed(state), None));
    };
    let (want, have) = (2 * state.size(), words.len());
    if have != want {
        let cause = BadMessage::BadLength {
            want: want as u64,
            have: have as u64,
        };
        return Ok(Progress::Stands(RingBlock::MulCrossed(state), Some(cause)));
    }
    let share = state.into_product::<R>(words);
    links.from_previous.take();
    Ok(Progress::Made {
        first: share,
        second: None,
    })
}
