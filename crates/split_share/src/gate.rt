ghost use Rattle.std.specs.Prelude.{Bool, true, false};
ghost use Rattle.proto_core.specs.Protocol.{Lawful};
ghost use Rattle.split_share.specs.Splitting.{split_protocol, Splits};
ghost use Rattle.split_share.specs.SplittingLaws.{split_lawful};

use proto_core::Interactive;

/// The gate that splits a number shared modulo 2^64 into two words, shared by xor, that add up to it.
pub struct SplitGate;

impl Interactive for SplitGate {
    ghost protocol = { split_protocol false };

    ghost clear = { Splits false };

    ghost lawful = { split_lawful false };
}

/// The gate that splits it into two words of which the first less the second is it.
pub struct NegatedSplitGate;

impl Interactive for NegatedSplitGate {
    ghost protocol = { split_protocol true };

    ghost clear = { Splits true };

    ghost lawful = { split_lawful true };
}

/// The number is the two words' sum, or their difference where the splitting is negated; the miners' parts together do
/// what the joint equations say, and what each miner receives is read off words that are mapped one to one from those
/// that were drawn.
pub fn split_is_lawful()
    ensures { (negated : Bool) → Lawful (split_protocol negated) (Splits negated) }
{}
