ghost use Rattle.proto_core.specs.Protocol.{Lawful};
ghost use Rattle.multiply.specs.Multiplying.{mul_protocol, Multiplies};
ghost use Rattle.multiply.specs.MultiplyingLaws.{mul_lawful};

use proto_core::{Interactive, ShareRing};
use std::marker::PhantomData;

/// The gate that multiplies two values shared in a ring: integers, or words bit by bit by `and`.
pub struct MulGate<R> {
    of: PhantomData<R>,
}

impl<R: ShareRing> Interactive for MulGate<R> {
    ghost protocol = { mul_protocol R.ring };

    ghost clear = { Multiplies R.ring };

    ghost lawful = { mul_lawful R.laws };
}

/// In any ring the three outputs add up to the product of the two values, the miners' parts together do what the joint
/// equations say, and what each miner receives is read off its own words and words that are mapped one to one from those
/// that were drawn.
pub fn mul_is_lawful<R: ShareRing>()
    ensures { Lawful (mul_protocol R.ring) (Multiplies R.ring) }
{}
