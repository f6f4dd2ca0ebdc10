ghost use Rattle.proto_core.specs.Protocol.{Lawful};
ghost use Rattle.share_convert.specs.Converting.{conv_protocol, Converts};
ghost use Rattle.share_convert.specs.ConvertingLaws.{conv_lawful};

use proto_core::Interactive;

/// The gate that turns a bit shared by xor into the number 0 or 1 shared modulo 2^64.
pub struct ConvGate;

impl Interactive for ConvGate {
    ghost protocol = { conv_protocol };

    ghost clear = { Converts };

    ghost lawful = { conv_lawful };
}

/// The three outputs add up to the lowest bit of the shares' xor, the miners' parts together do what the joint
/// equations say, and what each miner receives is read off its own words and words that are mapped one to one from
/// those that were drawn.
pub fn conv_is_lawful()
    ensures { Lawful conv_protocol Converts }
{}
