// One block's words by the row of its protocol.
ghost use Rattle.std.specs.Prelude.{◌≡◌, ◌≤◌, length};
ghost use Rattle.joint_run.specs.Three.{joint};
ghost use Rattle.joint_run.specs.Exchanges.{protocol_of, IsSized};
ghost use Rattle.tape_twin.specs.Maps.{block_map};

use crate::conversion::conversion_row;
use crate::own::own;
use crate::rows::{opening_row, product_row, splitting_row};
use crate::way::ViewMap;
use gates::RingKind;
use joint_run::{Exchange, Operands};
use proto_core::{AddRing, Msg, Number, XorRing};

/// The words of one miner, the drawer, in one block of at most 512 elements of an exchange: those that a miner's view is made of, or on
/// the way back those that are drawn.
pub fn view_row(map: ViewMap, exchange: Exchange, operands: &Operands, drawer: Number) -> Msg
    requires short { length operands.now.u.first ≤ 512 }
    requires sized { IsSized (protocol_of exchange) (length operands.now.u.first) (joint operands.now) }
    ensures row { result ≡ block_map map.way (protocol_of exchange) (length operands.now.u.first) map.miner (joint operands.now) drawer }
    ensures len { length result ≡ (protocol_of exchange).draws (length operands.now.u.first) drawer }
{
    match exchange {
        Exchange::Product(RingKind::Arithmetic) => product_row::<AddRing>(
            map.miner, operands, drawer,
        ),
        Exchange::Product(RingKind::Boolean) => product_row::<XorRing>(map.miner, operands, drawer),
        Exchange::Splitting(_) => splitting_row(map.miner, operands, drawer),
        Exchange::Conversion => conversion_row(map, operands, drawer),
        Exchange::Opening(RingKind::Arithmetic) => opening_row::<AddRing>(
            map.miner, operands, drawer,
        ),
        Exchange::Opening(RingKind::Boolean) => opening_row::<XorRing>(map.miner, operands, drawer),
        Exchange::Resharing(_) => Msg::from_words(own(operands, drawer).words),
    }
}
