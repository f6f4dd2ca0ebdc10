// Three miners in a net.
ghost use Rattle.std.specs.Prelude.{◌≡◌, None, IfOk};
ghost use Rattle.outside.specs.Tapes.{TapesState};
ghost use Rattle.verified_code.specs.Settled.{settled};
ghost use Rattle.value_file.specs.PublicFile.{IsWritable};
ghost use Rattle.view_model.specs.Dealing.{private_shares};
ghost use Rattle.miner_core.specs.Drawing.{Draws};
ghost use Rattle.miner_core.specs.Views.{task_world, task_code};
ghost use Rattle.link_schedule.specs.Miners.{ForEachState, IsNetOf, IsSomeNet, KeepSo};
ghost use Rattle.delivered_run.specs.Deliveries.{delivery_seen};
ghost use Rattle.delivered_run.specs.Drawing.{made, scheduled, DeliversOn, IsNewSo, Makes};
ghost use Rattle.delivered_run.specs.Nets.{setting_world};

use crate::errors::CourseErr;
use clear_eval::parts_given;
use counted_net::{Delivery, DeliveryErr};
use input_share::{Dealt, ShareFile};
use link_schedule::{Net3, RunErr};
use miner_core::{Kept, Lost, Miner, Task};
use outside::TapeSource;
use proto_core::Party;
use std::alloc::{AllocError, Global};
use value_file::PublicPart;
use value_steps::Lengths;
use verified_code::Verified;
use view_model::own_shares;

/// What all miners of a run know: its code, the public part of the inputs, the lengths of the tapes of the dealer and of miners 1, 2 and
/// 3, and the budget.
#[derive(Drop)]
pub(crate) struct Setting<'a> {
    pub code: &'a Verified,
    pub part: &'a PublicPart,
    pub lengths: [u64; 4],
    pub budget: u64,
}

/// What a miner is to run.
fn task(alloc: Global, setting: &Setting<'_>) -> Result<Task, AllocError>
    requires { IsWritable setting.now.part.now }
    ensures code { IfOk result (λ t. task_code t ≡ settled setting.now.code.now) }
    ensures world { IfOk result (λ t. task_world t ≡ setting_world setting.now) }
{
    let [dealer, first, second, third] = setting.lengths;
    let inputs = parts_given(alloc, setting.part)?;
    let code = setting.code.copy(alloc)?;
    Ok(Task {
        code,
        dealer,
        lengths: Lengths {
            first,
            second,
            third,
        },
        inputs,
    })
}

/// A miner with its shares of the inputs, which keeps this of what is done with. It draws its tape up to its first wait.
fn miner<P: Party, T: TapeSource>(
    alloc: Global,
    setting: &Setting<'_>,
    file: &ShareFile,
    past: Kept,
    tapes: &mut T,
) -> Result<Miner<P>, Lost>
    requires { IsWritable setting.now.part.now }
    ensures made { IfOk result (IsNewSo (T.state tapes.old) (T.state tapes.new) P.me setting.now (private_shares file.now.entries) past) }
    ensures draws { Draws P.me (T.state tapes.old) (T.state tapes.new) result }
{
    let dealt = own_shares(alloc, file.entries())?;
    let task = task(alloc, setting)?;
    Miner::keeping(alloc, task, dealt, setting.budget, past, tapes)
}

/// The three miners, to which nothing was delivered, and which keep this of what is done with.
pub(crate) fn net<T: TapeSource>(
    alloc: Global,
    setting: &Setting<'_>,
    files: &Dealt,
    past: Kept,
    tapes: &mut T,
) -> Result<Net3, Lost>
    requires { IsWritable setting.now.part.now }
    ensures makes { Makes (T.state tapes.old) (T.state tapes.new) IsNetOf setting.now files.now result }
    ensures kept { IfOk result (KeepSo past) }
{
    let one = miner(alloc, setting, &files.first, past, tapes)?;
    let two = miner(alloc, setting, &files.second, past, tapes)?;
    let three = miner(alloc, setting, &files.third, past, tapes)?;
    Ok(Net3::new(one, two, three, alloc))
}

/// What comes of a schedule.
fn scheduled(ran: Result<(), RunErr>) -> Result<(), CourseErr>
    ensures { result ≡ scheduled ran }
{
    match ran {
        Ok(()) => Ok(()),
        Err(RunErr::EmptyLink { entry, link, sent }) => {
            let refusal = DeliveryErr::EmptyLink { entry, link, sent };
            Err(CourseErr::Delivery(refusal))
        }
        Err(RunErr::Stalled { miner, link }) => {
            let refusal = DeliveryErr::Stalled { miner, link };
            Err(CourseErr::Delivery(refusal))
        }
        Err(RunErr::Lost(lost)) => Err(CourseErr::from(lost)),
    }
}

/// What comes of an order that the net makes itself.
fn made(ran: Result<(), Lost>) -> Result<(), CourseErr>
    ensures { result ≡ made ran }
{
    match ran {
        Ok(()) => Ok(()),
        Err(lost) => Err(CourseErr::from(lost)),
    }
}

/// Delivers the messages in this order, to the end.
pub(crate) fn deliver_all<T: TapeSource>(
    net: &mut Net3,
    delivery: &Delivery,
    tapes: &mut T,
) -> Result<(), CourseErr>
    requires { IsSomeNet net.old (T.state tapes.old) }
    ensures { ForEachState net.old (T.state tapes.old) (λ s.
        DeliversOn (T.state tapes.old) (T.state tapes.new) (delivery_seen delivery.now) s net.new result) }
{
    match delivery {
        Delivery::InTurn => made(net.drain(tapes)),
        Delivery::Scheduled(links) => scheduled(net.run(links, tapes)),
        Delivery::Shuffled(seed) => made(net.shuffled(*seed, tapes)),
    }
}
