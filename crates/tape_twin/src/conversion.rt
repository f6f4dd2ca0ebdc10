// A block of truth values turned into numbers: the first miner's words, as views of the other two show them.
ghost use Rattle.std.specs.Prelude.{◌≡◌, ◌*◌, ◌≤◌, length};
ghost use Rattle.share_convert.specs.Converting.{four, two_map, three_map, three_back, conv_protocol};
ghost use Rattle.joint_run.specs.Three.{joint};
ghost use Rattle.joint_run.specs.Exchanges.{IsSized};
ghost use Rattle.tape_twin.specs.Maps.{block_map};

use crate::bits::flipped_bits;
use crate::own::{AllThree, own};
use crate::way::{ViewMap, Way};
use joint_run::Operands;
use proto_core::{AddRing, Block, Msg, Number, XorRing};
use share_convert::{masked_bits, xored_bits};

/// Four fields, one after another.
fn four_fields(
    b: &Block<XorRing, AllThree>,
    e: &Block<XorRing, AllThree>,
    m: &Block<AddRing, AllThree>,
    a: &Block<AddRing, AllThree>,
) -> Msg
    requires short { length b.now ≤ 512 }
    requires e { length e.now ≡ length b.now }
    requires m { length m.now ≡ length b.now }
    requires a { length a.now ≡ length b.now }
    ensures fields { result ≡ four b.now e.now m.now a.now }
    ensures len { length result ≡ 4 * length b.now }
{
    let mut fields = Msg::from_block(b);
    fields.append_block(e);
    fields.append_block(m);
    fields.append_block(a);
    fields
}

/// For the second miner's view: b with its lowest bits turned where those of e xor the third miner's share are set.
#[tactic(auto, using(proto_core::proofs::Parts::part_steps))]
fn row_for_two(third: &[u64], words: &[u64]) -> Msg
    requires short { length third.now ≤ 512 }
    requires words { length words.now ≡ 4 * length third.now }
    ensures row { result ≡ two_map (length third.now) third.now words.now }
    ensures len { length result ≡ 4 * length third.now }
{
    let n = third.len();
    let drawn = Msg::from_words(words);
    let e = drawn.field(1, n);
    let turning = xored_bits(&e, &Block::from_words(third));
    let b = flipped_bits(&drawn.field(0, n), &turning);
    four_fields(&b, &e, &drawn.field(2, n), &drawn.field(3, n))
}

/// For the third miner's view: b with its lowest bits turned where those of e are set, e where those of the second miner's share
/// are, and what m leaves of the bits of b xor the first miner's share.
#[tactic(auto, using(proto_core::proofs::Parts::part_steps))]
fn row_for_three(first: &[u64], second: &[u64], words: &[u64]) -> Msg
    requires short { length first.now ≤ 512 }
    requires second { length second.now ≡ length first.now }
    requires words { length words.now ≡ 4 * length first.now }
    ensures row { result ≡ three_map (length first.now) first.now second.now words.now }
    ensures len { length result ≡ 4 * length first.now }
{
    let n = first.len();
    let drawn = Msg::from_words(words);
    let b = drawn.field(0, n);
    let e = drawn.field(1, n);
    let m = masked_bits(&b, &Block::from_words(first), &drawn.field(2, n));
    four_fields(
        &flipped_bits(&b, &e),
        &flipped_bits(&e, &Block::from_words(second)),
        &m,
        &drawn.field(3, n),
    )
}

/// The way back from the third miner's view: first e, by it b, and by that m.
#[tactic(auto, using(proto_core::proofs::Parts::part_steps))]
fn row_from_three(first: &[u64], second: &[u64], words: &[u64]) -> Msg
    requires short { length first.now ≤ 512 }
    requires second { length second.now ≡ length first.now }
    requires words { length words.now ≡ 4 * length first.now }
    ensures row { result ≡ three_back (length first.now) first.now second.now words.now }
    ensures len { length result ≡ 4 * length first.now }
{
    let n = first.len();
    let drawn = Msg::from_words(words);
    let e = flipped_bits(&drawn.field(1, n), &Block::from_words(second));
    let b = flipped_bits(&drawn.field(0, n), &e);
    let m = masked_bits(&b, &Block::from_words(first), &drawn.field(2, n));
    four_fields(&b, &e, &m, &drawn.field(3, n))
}

/// A block of a conversion.
pub(crate) fn conversion_row(map: ViewMap, operands: &Operands, drawer: Number) -> Msg
    requires short { length operands.now.u.first ≤ 512 }
    requires sized { IsSized conv_protocol (length operands.now.u.first) (joint operands.now) }
    ensures row { result ≡ block_map map.way conv_protocol (length operands.now.u.first) map.miner (joint operands.now) drawer }
    ensures len { length result ≡ conv_protocol.draws (length operands.now.u.first) drawer }
{
    let drawn = own(operands, drawer).words;
    match (map.miner, drawer) {
        (Number::Two, Number::One) => row_for_two(operands.third.u, drawn),
        (Number::Three, Number::One) => match map.way {
            Way::ToView => row_for_three(operands.first.u, operands.second.u, drawn),
            Way::FromView => row_from_three(operands.first.u, operands.second.u, drawn),
        },
        _ => Msg::from_words(drawn),
    }
}
