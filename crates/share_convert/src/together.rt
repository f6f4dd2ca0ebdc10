ghost use Rattle.std.specs.Prelude.{◌≡◌, ◌*◌, length};
ghost use Rattle.proto_core.specs.Rings.{add_ring};
ghost use Rattle.proto_core.specs.Resharing.{sum_of_three};
ghost use Rattle.share_convert.specs.Bits.{xor_bits_of_three};
ghost use Rattle.proto_core.specs.Joints.{joint_of};
ghost use Rattle.share_convert.specs.Parts.{AreParts};

use crate::conv::{Conv, First, Sent};
use proto_core::{AddRing, Block, Msg, P1, P2, P3, XorRing};

/// What one miner begins with: its shares of n bits, and its drawn words, 4n of the first miner and n of each other.
#[derive(Drop)]
pub struct Operand<'a, P> {
    pub u: &'a Block<XorRing, P>,
    pub words: &'a [u64],
}

/// The message that went over each link, and the shares of the numbers.
#[derive(Drop)]
pub struct Conversion {
    pub sent12: Msg,
    pub sent13: Msg,
    pub sent23: Msg,
    pub sent31: Msg,
    pub sent32: Msg,
    pub share1: Block<AddRing, P1>,
    pub share2: Block<AddRing, P2>,
    pub share3: Block<AddRing, P3>,
}

/// The three miners turn a block of shared bits into shared numbers.
///
/// Each message is what the protocol says, so none is refused, and the three shares add up to the lowest bit of the
/// xor of the shares of bits, element by element.
pub fn convert_together(first: Operand<P1>, second: Operand<P2>, third: Operand<P3>) -> Conversion
    requires words1 { length first.words.now ≡ 4 * length first.u.now }
    requires u2 { length second.u.now ≡ length first.u.now }
    requires words2 { length second.words.now ≡ length first.u.now }
    requires u3 { length third.u.now ≡ length first.u.now }
    requires words3 { length third.words.now ≡ length first.u.now }
    ensures parts { AreParts (length first.entry.u.now)
        (joint_of first.entry.u.now second.entry.u.now third.entry.u.now first.entry.words.now second.entry.words.now third.entry.words.now)
        result.sent12 result.sent13 result.sent23 result.sent31 result.sent32 result.share1 result.share2 result.share3 }
    ensures value { sum_of_three add_ring (length first.entry.u.now) result.share1 result.share2 result.share3
        ≡ xor_bits_of_three (length first.entry.u.now) first.entry.u.now second.entry.u.now third.entry.u.now }
{
    let (miner1, sent12, sent13) = Conv::<P1, Sent>::start(first.u, first.words);
    let miner2 = Conv::<P2, First>::start(second.u, second.words);
    let (miner3, sent31) = Conv::<P3, First>::start(third.u, third.words);
    let (miner2, sent23) = miner2.got12(&sent12).unwrap();
    let (miner3, sent32) = miner3.got13(&sent13).unwrap();
    let share1 = miner1.got31(&sent31).unwrap();
    let share2 = miner2.got32(&sent32).unwrap();
    let share3 = miner3.got23(&sent23).unwrap();
    Conversion {
        sent12,
        sent13,
        sent23,
        sent31,
        sent32,
        share1,
        share2,
        share3,
    }
}
