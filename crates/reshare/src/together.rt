ghost use Rattle.std.specs.Prelude.{◌≡◌, length};
ghost use Rattle.proto_core.specs.declared.party.Number.TheVariants.{One, Two, Three};
ghost use Rattle.proto_core.specs.Resharing.{sum_of_three};
ghost use Rattle.proto_core.specs.Joints.{joint_of};
ghost use Rattle.reshare.specs.Parts.{IsPart};

use crate::resharing::Reshare;
use proto_core::{Block, Msg, P1, P2, P3, ShareRing};

/// What one miner sent, and its new share.
#[derive(Drop)]
pub struct Part<R, P> {
    pub mask: Msg,
    pub share: Block<R, P>,
}

/// The three miners share a block anew, each with as many drawn words as the block has elements. It can't fail.
///
/// Each sends what the protocol says, and the new shares add up to what the old ones did.
pub fn reshare_together<R: ShareRing>(
    u1: &Block<R, P1>,
    u2: &Block<R, P2>,
    u3: &Block<R, P3>,
    words1: &[u64],
    words2: &[u64],
    words3: &[u64],
) -> (Part<R, P1>, Part<R, P2>, Part<R, P3>)
    requires two { length u2.now ≡ length u1.now }
    requires three { length u3.now ≡ length u1.now }
    requires words1 { length words1.now ≡ length u1.now }
    requires words2 { length words2.now ≡ length u1.now }
    requires words3 { length words3.now ≡ length u1.now }
    ensures first { IsPart R.ring (length u1.now) One
        (joint_of u1.now u2.now u3.now words1.now words2.now words3.now) result.0.mask result.0.share }
    ensures second { IsPart R.ring (length u1.now) Two
        (joint_of u1.now u2.now u3.now words1.now words2.now words3.now) result.1.mask result.1.share }
    ensures third { IsPart R.ring (length u1.now) Three
        (joint_of u1.now u2.now u3.now words1.now words2.now words3.now) result.2.mask result.2.share }
    ensures value { sum_of_three R.ring (length u1.now) result.0.share result.1.share result.2.share
        ≡ sum_of_three R.ring (length u1.now) u1.now u2.now u3.now }
{
    let (miner1, mask1) = Reshare::start(u1, words1);
    let (miner2, mask2) = Reshare::start(u2, words2);
    let (miner3, mask3) = Reshare::start(u3, words3);
    let share1 = miner1.got(&mask3).unwrap();
    let share2 = miner2.got(&mask1).unwrap();
    let share3 = miner3.got(&mask2).unwrap();
    (
        Part {
            mask: mask1,
            share: share1,
        },
        Part {
            mask: mask2,
            share: share2,
        },
        Part {
            mask: mask3,
            share: share3,
        },
    )
}
