// Orders of delivery that are refused.
ghost use Rattle.std.specs.Prelude.{◌≡◌, IfOk, string_bytes};
ghost use Rattle.program_commands.specs.Schedules.{empty_line, stalled_line, IsDeliveryStop};

use command_frame::{Status, Stop, refused};
use counted_net::DeliveryErr;
use proto_core::{Link, Number};
use std::alloc::{AllocError, Global};

// The line of an entry whose link has no message.
fn empty_text(alloc: Global, entry: u64, link: Link, sent: u64) -> Result<String, AllocError>
    ensures { IfOk result (λ text. string_bytes text ≡ empty_line entry link sent) }
{
    format!(in alloc; "error: S2 entry {entry} link {link} sent {sent}\n")
}

// The line of a miner that is left waiting.
#[tactic(auto, unfolding(crate::specs::Schedules::stalled_line))]
fn stalled_text(alloc: Global, miner: Number, link: Link) -> Result<String, AllocError>
    ensures { IfOk result (λ text. string_bytes text ≡ stalled_line miner link) }
{
    format!(in alloc; "error: S3 miner {miner} link {link}\n")
}

/// Why a schedule is refused by the run.
pub fn delivery_stop(alloc: Global, refusal: DeliveryErr) -> Stop
    ensures { IsDeliveryStop refusal result }
{
    match refusal {
        DeliveryErr::EmptyLink { entry, link, sent } => {
            refused(Status::Schedule, empty_text(alloc, entry, link, sent))
        }
        DeliveryErr::Stalled { miner, link } => {
            refused(Status::Schedule, stalled_text(alloc, miner, link))
        }
        DeliveryErr::Memory => Stop::Memory,
    }
}
