ghost use Rattle.std.specs.Prelude.{◌≡◌, ◌*◌, length};
ghost use Rattle.proto_core.specs.declared.party.Number.TheVariants.{One, Two, Three};
ghost use Rattle.proto_core.specs.Resharing.{sum_of_three};
ghost use Rattle.multiply.specs.Products.{times};
ghost use Rattle.proto_core.specs.Joints.{joint_of_two};
ghost use Rattle.multiply.specs.Parts.{IsPart};

use crate::multiply::Mul;
use lane_kernel::LaneRing;
use proto_core::{Block, Msg, P1, P2, P3};

/// What one miner begins with: its shares of both factors, and for n elements 3n drawn words.
#[derive(Drop)]
pub struct Operands<'a, R, P> {
    pub u: &'a Block<R, P>,
    pub v: &'a Block<R, P>,
    pub words: &'a [u64],
}

/// What one miner sent to the next, in order, and its share of the product.
#[derive(Drop)]
pub struct Part<R, P> {
    pub masks: Msg,
    pub factors: Msg,
    pub share: Block<R, P>,
}

/// The three miners multiply two blocks of n elements. It can't fail.
///
/// Each sends what the protocol says, and the three shares add up to the product, element by element.
pub fn multiply_together<R: LaneRing>(
    first: Operands<R, P1>,
    second: Operands<R, P2>,
    third: Operands<R, P3>,
) -> (Part<R, P1>, Part<R, P2>, Part<R, P3>)
    requires v1 { length first.v.now ≡ length first.u.now }
    requires words1 { length first.words.now ≡ 3 * length first.u.now }
    requires u2 { length second.u.now ≡ length first.u.now }
    requires v2 { length second.v.now ≡ length first.u.now }
    requires words2 { length second.words.now ≡ 3 * length first.u.now }
    requires u3 { length third.u.now ≡ length first.u.now }
    requires v3 { length third.v.now ≡ length first.u.now }
    requires words3 { length third.words.now ≡ 3 * length first.u.now }
    ensures part1 { IsPart R.ring (length first.entry.u.now) One
        (joint_of_two first.entry.u.now second.entry.u.now third.entry.u.now first.entry.v.now second.entry.v.now third.entry.v.now
        first.entry.words.now second.entry.words.now third.entry.words.now)
        result.0.masks result.0.factors result.0.share }
    ensures part2 { IsPart R.ring (length first.entry.u.now) Two
        (joint_of_two first.entry.u.now second.entry.u.now third.entry.u.now first.entry.v.now second.entry.v.now third.entry.v.now
        first.entry.words.now second.entry.words.now third.entry.words.now)
        result.1.masks result.1.factors result.1.share }
    ensures part3 { IsPart R.ring (length first.entry.u.now) Three
        (joint_of_two first.entry.u.now second.entry.u.now third.entry.u.now first.entry.v.now second.entry.v.now third.entry.v.now
        first.entry.words.now second.entry.words.now third.entry.words.now)
        result.2.masks result.2.factors result.2.share }
    ensures value { sum_of_three R.ring (length first.entry.u.now) result.0.share result.1.share result.2.share
        ≡ times R.ring (length first.entry.u.now) (sum_of_three R.ring (length first.entry.u.now) first.entry.u.now second.entry.u.now third.entry.u.now)
        (sum_of_three R.ring (length first.entry.u.now) first.entry.v.now second.entry.v.now third.entry.v.now) }
{
    let (miner1, masks1) = Mul::start(first.u, first.v, first.words);
    let (miner2, masks2) = Mul::start(second.u, second.v, second.words);
    let (miner3, masks3) = Mul::start(third.u, third.v, third.words);
    let (miner1, factors1) = miner1.got(&masks3).unwrap();
    let (miner2, factors2) = miner2.got(&masks1).unwrap();
    let (miner3, factors3) = miner3.got(&masks2).unwrap();
    let share1 = miner1.got(&factors3).unwrap();
    let share2 = miner2.got(&factors1).unwrap();
    let share3 = miner3.got(&factors2).unwrap();
    (
        Part {
            masks: masks1,
            factors: factors1,
            share: share1,
        },
        Part {
            masks: masks2,
            factors: factors2,
            share: share2,
        },
        Part {
            masks: masks3,
            factors: factors3,
            share: share3,
        },
    )
}
