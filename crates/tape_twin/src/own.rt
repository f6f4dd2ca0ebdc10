// One miner's part of the operands.
ghost use Rattle.std.specs.Prelude.{◌≡◌};
ghost use Rattle.proto_core.specs.Parties.{is_same};
ghost use Rattle.joint_run.specs.Three.{joint};

use joint_run::{Operands, Own};
use proto_core::Number;

/// Whose words a map works on: no one miner's, since it sees the words of all three.
pub(crate) struct AllThree;

/// What a miner begins a gate with.
pub(crate) fn own<'a>(operands: &Operands<'a>, miner: Number) -> Own<'a>
    ensures u { result.u.now ≡ (joint operands.now).u miner }
    ensures v { result.v.now ≡ (joint operands.now).v miner }
    ensures words { result.words.now ≡ (joint operands.now).words miner }
{
    match miner {
        Number::One => operands.first,
        Number::Two => operands.second,
        Number::Three => operands.third,
    }
}

/// Whether two numbers are those of the same miner.
pub(crate) fn is_same(miner: Number, other: Number) -> bool
    ensures { result ≡ is_same miner other }
{
    match (miner, other) {
        (Number::One, Number::One) | (Number::Two, Number::Two) | (Number::Three, Number::Three) =>
            true,
        _ => false,
    }
}
