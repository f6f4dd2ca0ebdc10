ghost use Rattle.proto_core.specs.Protocol.{Lawful};
ghost use Rattle.reshare.specs.Resharing.{reshare_protocol, Reshares};
ghost use Rattle.reshare.specs.ResharingLaws.{reshare-lawful};

use proto_core::{Interactive, ShareRing};
use std::marker::PhantomData;

/// The gate that shares a value anew in a ring.
pub struct ReshareGate<R> {
    of: PhantomData<R>,
}

impl<R: ShareRing> Interactive for ReshareGate<R> {
    ghost protocol = { reshare_protocol R.ring };

    ghost clear = { Reshares R.ring };

    ghost lawful = { reshare-lawful R.laws };
}

/// In any ring the three miners' messages and new shares are the protocol's, the new shares add up to what the old ones
/// did, scripts match, and each miner receives nothing but words that another one drew.
pub fn reshare_is_lawful<R: ShareRing>()
    ensures { Lawful (reshare_protocol R.ring) (Reshares R.ring) }
{}
