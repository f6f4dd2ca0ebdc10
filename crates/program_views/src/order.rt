ghost use Rattle.std.specs.Prelude.{IfOk};
ghost use Rattle.program_views.specs.Coming.{AreArrivals};

use crate::arrival::Arrival;
use crate::coming::Coming;
use proto_core::{Link, Messages, Number};
use std::alloc::{AllocError, Global};

/// The messages that come to a miner by a delivered order of links, in the order in which they come, of those from its previous
/// miner and those from its next one, each oldest first. An entry whose link has no message left brings none.
pub fn arrivals(
    alloc: Global,
    miner: Number,
    previous: &Messages,
    next: &Messages,
    order: &[Link],
) -> Result<Vec<Arrival>, AllocError>
    ensures { IfOk result (λ got. AreArrivals miner previous.now next.now order.now got.items) }
{
    let mut coming = Coming::new(miner, previous, next);
    let mut got = Vec::new(alloc);
    for link in order {
        if let Some(message) = coming.enter(*link) {
            got.push(Arrival::new(alloc, *link, &message)?)?;
        }
    }
    Ok(got)
}
