ghost use Rattle.proto_core.specs.Protocol.{Lawful};
ghost use Rattle.reshare.specs.Resharing.{reshare_protocol, Reshares};
ghost use Rattle.reshare.specs.ResharingLaws.{reshare-lawful};
ghost use Rattle.open_result.specs.Opening.{open_protocol, Opens};
ghost use Rattle.open_result.specs.OpeningLaws.{open-lawful};

use proto_core::{Interactive, ShareRing};
use std::marker::PhantomData;

/// The gate that opens a value shared in a ring to the three miners.
pub struct OpenGate<R> {
    of: PhantomData<R>,
}

impl<R: ShareRing> Interactive for OpenGate<R> {
    ghost protocol = { open_protocol R.ring };

    ghost clear = { Opens R.ring };

    ghost lawful = { open-lawful R.laws };
}

/// The gate that hands a value shared in a ring to the client, as three new shares of it. No miner learns the value.
pub struct ResultGate<R> {
    of: PhantomData<R>,
}

impl<R: ShareRing> Interactive for ResultGate<R> {
    ghost protocol = { reshare_protocol R.ring };

    ghost clear = { Reshares R.ring };

    ghost lawful = { reshare-lawful R.laws };
}

/// In any ring each miner opens the ring's sum of the three shares, scripts match, and what each miner receives is
/// read off its own words, the opened words and words that are mapped one to one from those that were drawn.
pub fn open_is_lawful<R: ShareRing>()
    ensures { Lawful (open_protocol R.ring) (Opens R.ring) }
{}

/// In any ring the shares for the client add up to what the miners' shares do, scripts match, nothing is opened, and
/// each miner receives nothing but words that another one drew.
pub fn result_is_lawful<R: ShareRing>()
    ensures { Lawful (reshare_protocol R.ring) (Reshares R.ring) }
{}
