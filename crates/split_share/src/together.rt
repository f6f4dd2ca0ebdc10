ghost use Rattle.std.specs.Prelude.{◌≡◌, [], length};
ghost use Rattle.proto_core.specs.Rings.{add_ring, xor_ring};
ghost use Rattle.proto_core.specs.declared.party.Number.TheVariants.{One, Two, Three};
ghost use Rattle.proto_core.specs.Resharing.{sum_of_three};
ghost use Rattle.split_share.specs.Splitting.{sum_or_difference};
ghost use Rattle.proto_core.specs.Joints.{joint_of};
ghost use Rattle.split_share.specs.Parts.{AreSent, AreShares};

use crate::split::{Sent, Split, Waiting};
use proto_core::{AddRing, Block, Msg, P1, P2, P3, XorRing};

/// The messages that went over the two links, and each miner's shares of both words.
#[derive(Drop)]
pub struct Splitting {
    pub sent12: Msg,
    pub sent13: Msg,
    pub shares1: (Block<XorRing, P1>, Block<XorRing, P1>),
    pub shares2: (Block<XorRing, P2>, Block<XorRing, P2>),
    pub shares3: (Block<XorRing, P3>, Block<XorRing, P3>),
}

/// The three miners split a block of shared numbers, the first with as many drawn words. It can't fail.
///
/// The messages and shares are what the protocol says, and each number is the sum of its two words, or the first less
/// the second where the splitting is negated.
pub fn split_together(
    u1: &Block<AddRing, P1>,
    u2: &Block<AddRing, P2>,
    u3: &Block<AddRing, P3>,
    negated: bool,
    words: &[u64],
) -> Splitting
    requires words { length words.now ≡ length u1.now }
    requires two { length u2.now ≡ length u1.now }
    requires three { length u3.now ≡ length u1.now }
    ensures sent { AreSent (length u1.now) (joint_of u1.now u2.now u3.now words.now [] []) result.sent12 result.sent13 }
    ensures first { AreShares negated (length u1.now) One (joint_of u1.now u2.now u3.now words.now [] []) result.shares1.0 result.shares1.1 }
    ensures second { AreShares negated (length u1.now) Two (joint_of u1.now u2.now u3.now words.now [] []) result.shares2.0 result.shares2.1 }
    ensures third { AreShares negated (length u1.now) Three (joint_of u1.now u2.now u3.now words.now [] []) result.shares3.0 result.shares3.1 }
    ensures value { sum_or_difference negated (length u1.now)
        (sum_of_three xor_ring (length u1.now) result.shares1.0 result.shares2.0 result.shares3.0)
        (sum_of_three xor_ring (length u1.now) result.shares1.1 result.shares2.1 result.shares3.1)
        ≡ sum_of_three add_ring (length u1.now) u1.now u2.now u3.now }
{
    let miner2 = Split::<P2, Waiting>::start(u2, negated);
    let miner3 = Split::<P3, Waiting>::start(u3, negated);
    let (sent12, sent13, x1, y1) = Split::<P1, Sent>::start(u1, words);
    let shares2 = miner2.got12(&sent12).unwrap();
    let shares3 = miner3.got13(&sent13).unwrap();
    Splitting {
        sent12,
        sent13,
        shares1: (x1, y1),
        shares2,
        shares3,
    }
}
