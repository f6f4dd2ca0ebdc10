// In which order messages are delivered.
ghost use Rattle.std.specs.Prelude.{IfErr};
ghost use Rattle.outside.specs.Files.{SameSizes};
ghost use Rattle.command_frame.specs.Reads.{OnlyRead, Gives, StopNames};
ghost use Rattle.command_words.specs.Views.{order_ask};
ghost use Rattle.counted_net.specs.Answers.{delivery_seen};
ghost use Rattle.program_commands.specs.Reading.{delivery_at, order_paths};

use crate::readers::read_schedule_file;
use command_frame::Stop;
use command_words::DeliveryOrder;
use counted_net::Delivery;
use outside::Files;
use std::alloc::Global;

/// In which order messages are delivered. Reading it answers no size, so a file whose size was answered before stays open.
#[tactic(auto, unfolding(crate::specs::Reading::delivery_at))]
pub fn read_delivery<F: Files>(
    alloc: Global,
    files: &mut F,
    order: &DeliveryOrder,
) -> Result<Delivery, Stop>
    ensures files { OnlyRead (F.state files.old) (F.state files.new) }
    ensures sizes { SameSizes (F.state files.old) (F.state files.new) }
    ensures answer { Gives delivery_seen (F.state files.old) (F.state files.new) result
        (delivery_at (F.state files.old).contents (order_ask order.now)) }
    ensures names { IfErr result (StopNames (order_paths (order_ask order.now))) }
{
    match order {
        DeliveryOrder::InTurn => Ok(Delivery::InTurn),
        DeliveryOrder::Schedule(path) => {
            let links = read_schedule_file(alloc, files, path)?;
            Ok(Delivery::Scheduled(links))
        }
        DeliveryOrder::Shuffle(seed) => Ok(Delivery::Shuffled(*seed)),
    }
}
