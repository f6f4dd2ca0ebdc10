// A value that is shared anew, block by block. What has room for states is `#[inline(never)]`: it is made anew each time.
ghost use Rattle.std.specs.Prelude.{◌≡◌, ◌≤◌, length, OnOk, IfOk};
ghost use Rattle.reshare.specs.Resharing.{reshare_strand};
ghost use Rattle.reshare.specs.Steps.{left_sent};
ghost use Rattle.block_steps.specs.Outcomes.{outcome_of, Holds, IsBeside};
ghost use Rattle.block_steps.specs.Pendings.{ring_left, progress_left, StandsThen, Shorter};

use crate::links::Links;
use crate::progress::Progress;
use crate::ring_block::RingBlock;
use proto_core::{BadMessage, Party, ShareRing};
use reshare::ShareWords;
use std::alloc::AllocError;
use std::marker::PhantomData;

/// Sends the mask.
#[inline(never)]
pub fn begin<R: ShareRing, P: Party>(
    u: &[u64],
    words: &[u64],
    links: &mut Links,
) -> Result<RingBlock<R, P>, AllocError>
    requires short { length u.now ≤ 512 }
    requires drawn { length words.now ≡ length u.now }
    ensures same { IfOk result (λ to. outcome_of P.me links.new (ring_left R.ring P.me to)
        ≡ outcome_of P.me links.old (reshare_strand R.ring (length u.now) P.me u.now words.now)) }
    ensures unread { OnOk result (IsBeside links.old links.new) }
{
    let state = ShareWords::new(links.alloc(), u, words)?;
    links.to_next.push_words(words)?;
    Ok(RingBlock::Resharing(state, PhantomData))
}

/// Takes the previous miner's mask.
#[inline(never)]
pub fn sent<R: ShareRing, P: Party>(
    mut state: ShareWords,
    links: &mut Links,
) -> Result<Progress<RingBlock<R, P>>, AllocError>
    ensures same { IfOk result (λ to. outcome_of P.me links.new (progress_left (ring_left R.ring P.me) to)
        ≡ outcome_of P.me links.old (left_sent R.ring P.me state)) }
    ensures stands { IfOk result (λ to. StandsThen (ring_left R.ring P.me) P.me links.new to) }
    ensures falls { IfOk result (λ to. Shorter links.old links.new to) }
    ensures kept { OnOk result (Holds links.old links.new) }
{
    let Some(words) = links.from_previous.lent() else {
        return Ok(Progress::Stands(RingBlock::Resharing(state, PhantomData), None));
    };
    let (want, have) = (state.size(), words.len());
    if have != want {
        let cause = BadMessage::BadLength {
            want: want as u64,
            have: have as u64,
        };
        return Ok(Progress::Stands(RingBlock::Resharing(state, PhantomData), Some(cause)));
    }
    state.take_mask::<R>(words);
    links.from_previous.take();
    Ok(Progress::Made {
        first: Vec::from_slice(links.alloc(), state.share())?,
        second: None,
    })
}
