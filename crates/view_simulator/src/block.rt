// What a miner sends and takes in each block of a gate: the links alone, which are the same in a block of any size.
ghost use Rattle.std.specs.Prelude.{◌≡◌};
ghost use Rattle.multiply.specs.Multiplying.{mul_script};
ghost use Rattle.open_result.specs.Opening.{open_script};
ghost use Rattle.reshare.specs.Resharing.{reshare_script};
ghost use Rattle.share_convert.specs.Converting.{conv_script};
ghost use Rattle.split_share.specs.Splitting.{split_script};
ghost use Rattle.counted_net.specs.Scripts.{links_in};
ghost use Rattle.view_simulator.specs.Blocks.{block_moves};

use counted_net::Move;
use gates::Gate;
use proto_core::{Link, Number};

/// Of a product: its masks and then its factors to the next miner, and as much from the previous one.
fn product_moves(miner: Number) -> &'static [Move]
    ensures { result.now ≡ links_in (mul_script 512 miner) }
{
    match miner {
        Number::One => &[
            Move::Sends(Link::Link12),
            Move::Takes(Link::Link31),
            Move::Sends(Link::Link12),
            Move::Takes(Link::Link31),
        ],
        Number::Two => &[
            Move::Sends(Link::Link23),
            Move::Takes(Link::Link12),
            Move::Sends(Link::Link23),
            Move::Takes(Link::Link12),
        ],
        Number::Three => &[
            Move::Sends(Link::Link31),
            Move::Takes(Link::Link23),
            Move::Sends(Link::Link31),
            Move::Takes(Link::Link23),
        ],
    }
}

/// Of a splitting: the first miner sends, the others take.
fn splitting_moves(miner: Number) -> &'static [Move]
    ensures { result.now ≡ links_in (split_script 512 miner) }
{
    match miner {
        Number::One => &[Move::Sends(Link::Link12), Move::Sends(Link::Link13)],
        Number::Two => &[Move::Takes(Link::Link12)],
        Number::Three => &[Move::Takes(Link::Link13)],
    }
}

/// Of a conversion, where each miner has a part of its own.
fn conversion_moves(miner: Number) -> &'static [Move]
    ensures { result.now ≡ links_in (conv_script 512 miner) }
{
    match miner {
        Number::One => &[
            Move::Sends(Link::Link12),
            Move::Sends(Link::Link13),
            Move::Takes(Link::Link31),
        ],
        Number::Two => &[
            Move::Takes(Link::Link12),
            Move::Sends(Link::Link23),
            Move::Takes(Link::Link32),
        ],
        Number::Three => &[
            Move::Sends(Link::Link31),
            Move::Takes(Link::Link13),
            Move::Sends(Link::Link32),
            Move::Takes(Link::Link23),
        ],
    }
}

/// Of an opening: a mask goes round, and then each miner's new share to both others.
fn opening_moves(miner: Number) -> &'static [Move]
    ensures { result.now ≡ links_in (open_script 512 miner) }
{
    match miner {
        Number::One => &[
            Move::Sends(Link::Link12),
            Move::Takes(Link::Link31),
            Move::Sends(Link::Link12),
            Move::Sends(Link::Link13),
            Move::Takes(Link::Link31),
            Move::Takes(Link::Link21),
        ],
        Number::Two => &[
            Move::Sends(Link::Link23),
            Move::Takes(Link::Link12),
            Move::Sends(Link::Link23),
            Move::Sends(Link::Link21),
            Move::Takes(Link::Link12),
            Move::Takes(Link::Link32),
        ],
        Number::Three => &[
            Move::Sends(Link::Link31),
            Move::Takes(Link::Link23),
            Move::Sends(Link::Link31),
            Move::Sends(Link::Link32),
            Move::Takes(Link::Link23),
            Move::Takes(Link::Link13),
        ],
    }
}

/// Of a value shared anew: a mask goes round.
fn resharing_moves(miner: Number) -> &'static [Move]
    ensures { result.now ≡ links_in (reshare_script 512 miner) }
{
    match miner {
        Number::One => &[Move::Sends(Link::Link12), Move::Takes(Link::Link31)],
        Number::Two => &[Move::Sends(Link::Link23), Move::Takes(Link::Link12)],
        Number::Three => &[Move::Sends(Link::Link31), Move::Takes(Link::Link23)],
    }
}

/// What a miner sends and takes in each block of a gate, none where the gate sends no message.
pub(crate) fn block_moves(gate: &Gate, miner: Number) -> &'static [Move]
    ensures { result.now ≡ block_moves gate.now miner }
{
    match gate {
        Gate::Mul { .. } | Gate::And { .. } => product_moves(miner),
        Gate::Split { .. } => splitting_moves(miner),
        Gate::Conv { .. } => conversion_moves(miner),
        Gate::Open { .. } => opening_moves(miner),
        Gate::Result { .. } => resharing_moves(miner),
        _ => &[],
    }
}
