ghost use Rattle.std.specs.Prelude.{◌≡◌, length};
ghost use Rattle.proto_core.specs.declared.party.Number.TheVariants.{One, Two, Three};
ghost use Rattle.proto_core.specs.Joints.{joint_of};
ghost use Rattle.open_result.specs.Parts.{IsPart};

use crate::open::Open;
use proto_core::{Block, Msg, P1, P2, P3, ShareRing};

/// What one miner sent, in order, and the words that it opened.
#[derive(Drop)]
pub struct Part {
    pub mask: Msg,
    pub to_next: Msg,
    pub to_previous: Msg,
    pub opened: Msg,
}

/// The three miners open a block, each with as many drawn words as the block has elements. It can't fail.
///
/// Each sends what the protocol says, and opens the ring's sum of the three shares.
pub fn open_together<R: ShareRing>(
    u1: &Block<R, P1>,
    u2: &Block<R, P2>,
    u3: &Block<R, P3>,
    words1: &[u64],
    words2: &[u64],
    words3: &[u64],
) -> (Part, Part, Part)
    requires two { length u2.now ≡ length u1.now }
    requires three { length u3.now ≡ length u1.now }
    requires words1 { length words1.now ≡ length u1.now }
    requires words2 { length words2.now ≡ length u1.now }
    requires words3 { length words3.now ≡ length u1.now }
    ensures first { IsPart R.ring (length u1.now) One
        (joint_of u1.now u2.now u3.now words1.now words2.now words3.now) result.0 }
    ensures second { IsPart R.ring (length u1.now) Two
        (joint_of u1.now u2.now u3.now words1.now words2.now words3.now) result.1 }
    ensures third { IsPart R.ring (length u1.now) Three
        (joint_of u1.now u2.now u3.now words1.now words2.now words3.now) result.2 }
{
    let (miner1, mask1) = Open::start(u1, words1);
    let (miner2, mask2) = Open::start(u2, words2);
    let (miner3, mask3) = Open::start(u3, words3);
    let (miner1, to2, from1) = miner1.got(&mask3).unwrap();
    let (miner2, to3, from2) = miner2.got(&mask1).unwrap();
    let (miner3, to1, from3) = miner3.got(&mask2).unwrap();
    let opened1 = miner1.got(&to1).unwrap().got(&from2).unwrap();
    let opened2 = miner2.got(&to2).unwrap().got(&from3).unwrap();
    let opened3 = miner3.got(&to3).unwrap().got(&from1).unwrap();
    (
        Part {
            mask: mask1,
            to_next: to2,
            to_previous: from1,
            opened: opened1,
        },
        Part {
            mask: mask2,
            to_next: to3,
            to_previous: from2,
            opened: opened2,
        },
        Part {
            mask: mask3,
            to_next: to1,
            to_previous: from3,
            opened: opened3,
        },
    )
}
