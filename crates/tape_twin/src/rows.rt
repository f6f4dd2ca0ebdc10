// Blocks of the other protocols. Each of these maps is its own way back.
ghost use Rattle.std.specs.Prelude.{◌≡◌, ◌*◌, ◌≤◌, ◌++◌, length};
ghost use Rattle.proto_core.specs.Lists.{part};
ghost use Rattle.proto_core.specs.Resharing.{reshared};
ghost use Rattle.multiply.specs.Multiplying.{mul_protocol, mul_tape};
ghost use Rattle.open_result.specs.Opening.{open_protocol, open_tape};
ghost use Rattle.split_share.specs.Splitting.{split_draws, split_tape};
ghost use Rattle.proto_core.specs.declared.party.Number.{Number as NumberValue};
ghost use Rattle.joint_run.specs.Three.{joint};
ghost use Rattle.joint_run.specs.Exchanges.{IsSized};

use crate::own::{AllThree, is_same, own};
use joint_run::{Operands, Own};
use proto_core::{AddRing, Block, Msg, Number, ShareRing, reshare, subtract_blocks};

/// A field of words that mask a share, as the share that they were made of.
fn masked_share<R: ShareRing>(
    share: &[u64],
    mask: &Block<R, AllThree>,
    got: &Block<R, AllThree>,
) -> Block<R, AllThree>
    requires short { length share.now ≤ 512 }
    requires mask { length mask.now ≡ length share.now }
    requires got { length got.now ≡ length share.now }
    ensures share { result ≡ reshared R.ring (length share.now) share.now mask.now got.now }
    ensures len { length result ≡ length share.now }
{
    reshare(&Block::from_words(share), mask, got)
}

/// Both factors of a miner, masked with its own words and with those that the next miner drew, and then the next one's third field.
#[tactic(auto, using(proto_core::proofs::Parts::part_steps))]
fn masked_factors<R: ShareRing>(factors: Own, drawn: &[u64]) -> Msg
    requires short { length factors.u.now ≤ 512 }
    requires v { length factors.v.now ≡ length factors.u.now }
    requires words { length factors.words.now ≡ 3 * length factors.u.now }
    requires drawn { length drawn.now ≡ 3 * length factors.u.now }
    ensures row { result
        ≡ (reshared R.ring (length factors.entry.u.now) factors.entry.u.now
        (part (length factors.entry.u.now) 0 factors.entry.words.now) (part (length factors.entry.u.now) 0 drawn.now)
        ++ reshared R.ring (length factors.entry.u.now) factors.entry.v.now
        (part (length factors.entry.u.now) 1 factors.entry.words.now) (part (length factors.entry.u.now) 1 drawn.now))
        ++ part (length factors.entry.u.now) 2 drawn.now }
    ensures len { length result ≡ 3 * length factors.entry.u.now }
{
    let n = factors.u.len();
    let masks = Msg::from_words(factors.words);
    let got = Msg::from_words(drawn);
    let u = masked_share::<R>(factors.u, &masks.field(0, n), &got.field(0, n));
    let v = masked_share::<R>(factors.v, &masks.field(1, n), &got.field(1, n));
    let mut row = Msg::from_block(&u);
    row.append_block(&v);
    row.append_block::<R, AllThree>(&got.field(2, n));
    row
}

/// A block of a product: where the next miner's masks of the factors stood, a view has the previous miner's masked factors.
pub(crate) fn product_row<R: ShareRing>(miner: Number, operands: &Operands, drawer: Number) -> Msg
    requires short { length operands.now.u.first ≤ 512 }
    requires sized { IsSized (mul_protocol R.ring) (length operands.now.u.first) (joint operands.now) }
    ensures row { result ≡ mul_tape R.ring (length operands.now.u.first) miner (joint operands.now) drawer }
    ensures len { length result ≡ 3 * length operands.now.u.first }
{
    let drawn = own(operands, drawer).words;
    if is_same(drawer, miner.next()) {
        masked_factors::<R>(own(operands, miner.previous()), drawn)
    } else {
        Msg::from_words(drawn)
    }
}

/// A block that is opened: where the next miner's mask stood, a view has the previous miner's new share.
pub(crate) fn opening_row<R: ShareRing>(miner: Number, operands: &Operands, drawer: Number) -> Msg
    requires short { length operands.now.u.first ≤ 512 }
    requires sized { IsSized (open_protocol R.ring) (length operands.now.u.first) (joint operands.now) }
    ensures row { result ≡ open_tape R.ring (length operands.now.u.first) miner (joint operands.now) drawer }
    ensures len { length result ≡ length operands.now.u.first }
{
    let drawn = own(operands, drawer).words;
    if is_same(drawer, miner.next()) {
        let previous = own(operands, miner.previous());
        let mask = Block::from_words(previous.words);
        Msg::from_block(&masked_share::<R>(previous.u, &mask, &Block::from_words(drawn)))
    } else {
        Msg::from_words(drawn)
    }
}

/// A block that is split: where the first miner's word stood, the third miner's view has what it leaves of the first one's share.
pub(crate) fn splitting_row(miner: Number, operands: &Operands, drawer: Number) -> Msg
    requires short { length operands.now.u.first ≤ 512 }
    requires words { (i : NumberValue) → length ((joint operands.now).words i) ≡ split_draws (length operands.now.u.first) i }
    ensures row { result ≡ split_tape (length operands.now.u.first) miner (joint operands.now) drawer }
    ensures len { length result ≡ split_draws (length operands.now.u.first) drawer }
{
    let drawn = own(operands, drawer).words;
    match (miner, drawer) {
        (Number::Three, Number::One) => {
            let share: Block<AddRing, AllThree> = Block::from_words(operands.first.u);
            Msg::from_block(&subtract_blocks(&share, &Block::from_words(drawn)))
        }
        _ => Msg::from_words(drawn),
    }
}
