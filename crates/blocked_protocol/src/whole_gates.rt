ghost use Rattle.std.specs.Prelude.{Bool};
ghost use Rattle.proto_core.specs.Ring.{Ring, RingLaws};
ghost use Rattle.proto_core.specs.Protocol.{Lawful};
ghost use Rattle.multiply.specs.Multiplying.{mul_protocol};
ghost use Rattle.open_result.specs.Opening.{open_protocol};
ghost use Rattle.open_result.specs.Resharing.{reshare_protocol};
ghost use Rattle.share_convert.specs.Converting.{conv_protocol};
ghost use Rattle.split_share.specs.Splitting.{split_protocol};
ghost use Rattle.blocked_protocol.specs.Blocked.{blocked};
ghost use Rattle.blocked_protocol.specs.Outcomes.{Makes, IsProduct, IsOpened, IsReshared, IsConverted, IsSplit};

/// Law: the protocol that multiplies, on any number of elements, is right and private, and the three outputs add up to
/// the product of the two values. By `and`, in the ring of words with xor; modulo 2^64, in that of integers.
pub fn whole_product_is_lawful()
    ensures { (r : Ring) → RingLaws r →
        Lawful (blocked (mul_protocol r)) (Makes (blocked (mul_protocol r)) (IsProduct r)) }
{}

/// Law: so is the one that opens: each miner has the value of all elements, and it is what is opened.
pub fn whole_opening_is_lawful()
    ensures { (r : Ring) → RingLaws r →
        Lawful (blocked (open_protocol r)) (Makes (blocked (open_protocol r)) (IsOpened r)) }
{}

/// Law: so is the one that shares anew, for the client: the new shares have the same value.
pub fn whole_result_is_lawful()
    ensures { (r : Ring) → RingLaws r →
        Lawful (blocked (reshare_protocol r)) (Makes (blocked (reshare_protocol r)) (IsReshared r)) }
{}

/// Law: so is the one that converts: the three outputs add up, modulo 2^64, to the lowest bit of each element.
pub fn whole_conversion_is_lawful()
    ensures { Lawful (blocked conv_protocol) (Makes (blocked conv_protocol) IsConverted) }
{}

/// Law: so is the one that splits each element into two words whose sum it is, or their difference.
pub fn whole_splitting_is_lawful()
    ensures { (negated : Bool) →
        Lawful (blocked (split_protocol negated)) (Makes (blocked (split_protocol negated)) (IsSplit negated)) }
{}
