// The run of a program by three miners apart.
ghost use Rattle.std.specs.Prelude.{◌≡◌, None, IfOk};
ghost use Rattle.outside.specs.Tapes.{TapesState};
ghost use Rattle.value_file.specs.Input.{AreInputs};
ghost use Rattle.link_schedule.specs.Miners.{ForEachState, IsNetOf, IsSomeNet, KeepSo};
ghost use Rattle.link_schedule.specs.Streams.{ForEachTapes, HasLeft, StreamNet};
ghost use Rattle.miner_core.specs.declared.kept.Kept.{Kept};
ghost use Rattle.delivered_run.specs.Deliveries.{delivery_seen};
ghost use Rattle.delivered_run.specs.Drawing.{NetGoes, NetRuns, RunsDealt};
ghost use Rattle.delivered_run.specs.Nets.{HasTold, IsToldBy};
ghost use Rattle.delivered_run.specs.States.{AsSeen, IsRunIn};
ghost use Rattle.delivered_run.specs.Undealt.{IsFirstEntry, IsUndealt, IsUndealtBy};

use crate::client::told_to_client;
use crate::errors::CourseErr;
use crate::net::{Setting, deliver_all, net};
use counted_net::{Delivery, DeliveryErr};
use input_share::{DealErr, Dealt};
use link_schedule::Net3;
use miner_core::{Kept, Notice};
use outside::TapeSource;
use program_run::{RunReport, undealt};
use proto_core::Link;
use sc_text::{End, Ending};
use std::alloc::{AllocError, Global};
use value_file::{Inputs, public_part};
use verified_code::Verified;

/// A run of which all messages came: what it told, and the links on which messages were delivered, in order.
#[derive(Drop)]
pub struct DeliveredRun {
    pub report: RunReport,
    pub delivered: Vec<Link>,
}

/// What came of a run of three miners, and the miners as they stand after it.
pub struct NetRun {
    pub run: DeliveredRun,
    pub net: Net3,
}

// Written out, so that an early exit calls this once.
impl Drop for NetRun {
    fn drop(self) {
        let NetRun { run: _, net: _ } = self;
    }
}

impl NetRun {
    /// What came of it.
    pub fn into_run(self) -> DeliveredRun
        ensures { result ≡ self.run }
    {
        let NetRun { run, net: _ } = self;
        run
    }
}

// What the client is told where the three miners have told this, and the first has ended so, at this cost.
fn report(
    alloc: Global,
    first: &[Notice],
    second: &[Notice],
    third: &[Notice],
    cost: u64,
    ending: Option<Ending>,
) -> Result<RunReport, AllocError>
    ensures { IfOk result (IsToldBy first.now second.now third.now cost ending) }
{
    let events = told_to_client(alloc, first, second, third)?;
    match ending {
        Some(how) => Ok(RunReport {
            events,
            end: End { how, cost },
        }),
        // No run of verified code ends otherwise.
        None => Err(AllocError),
    }
}

// What the miners of a net have told that has come to its end.
fn reported(alloc: Global, net: &Net3) -> Result<RunReport, AllocError>
    ensures { (s : StreamNet) → IsNetOf net.now s → s.lost ≡ None → IfOk result (λ told. ForEachTapes s (λ n. HasTold n told)) }
{
    let first = net.miner1();
    let second = net.miner2().notices();
    let third = net.miner3().notices();
    let cost = first.cost();
    report(alloc, first.notices(), second, third, cost, first.ending())
}

/// What a run needs: the code, the inputs, how many words the four tapes have, those of the dealer and of miners 1, 2 and 3, and the budget.
#[derive(Drop)]
pub(crate) struct Job<'a> {
    pub code: &'a Verified,
    pub inputs: &'a Inputs,
    pub lengths: [u64; 4],
    pub budget: u64,
}

/// The messages of a net are delivered in this order, and what comes of it is kept.
fn run_net<T: TapeSource>(
    alloc: Global,
    net: Net3,
    delivery: &Delivery,
    tapes: &mut T,
) -> Result<NetRun, CourseErr>
    requires { IsSomeNet net (T.state tapes.old) }
    ensures goes { ForEachState net (T.state tapes.old) (λ s.
        AsSeen IsRunIn (NetGoes (T.state tapes.old) (T.state tapes.new) (delivery_seen delivery.now) s) result) }
    ensures kept { (past : Kept) → (s : StreamNet) → IsNetOf net s → s.lost ≡ None → HasLeft s (T.state tapes.old) →
        KeepSo past net → IfOk result (λ ran. KeepSo past ran.net) }
{
    let mut net = net;
    deliver_all(&mut net, delivery, tapes)?;
    let report = reported(alloc, &net)?;
    let delivered = Vec::from_slice(alloc, net.recorded())?;
    let run = DeliveredRun { report, delivered };
    Ok(NetRun { run, net })
}

/// Three miners that keep this of what is done with run the code on their shares, and draw their tapes.
pub(crate) fn run_dealt<T: TapeSource>(
    alloc: Global,
    job: &Job<'_>,
    files: &Dealt,
    past: Kept,
    delivery: &Delivery,
    tapes: &mut T,
) -> Result<NetRun, CourseErr>
    requires { AreInputs job.now.inputs.now }
    ensures runs { AsSeen IsRunIn
        (λ r. NetRuns (T.state tapes.old) (T.state tapes.new) r (RunsDealt job.now files.now (delivery_seen delivery.now) r)) result }
    ensures kept { IfOk result (λ ran. KeepSo past ran.net) }
{
    let part = public_part(alloc, job.inputs)?;
    let setting = Setting {
        code: job.code,
        part: &part,
        lengths: job.lengths,
        budget: job.budget,
    };
    let net = net(alloc, &setting, files, past, tapes)?;
    run_net(alloc, net, delivery, tapes)
}

// The first link of a schedule.
fn first_entry(delivery: &Delivery) -> Option<Link>
    ensures { IsFirstEntry (delivery_seen delivery.now) result }
{
    match delivery {
        Delivery::Scheduled(links) => links.first().copied(),
        Delivery::InTurn | Delivery::Shuffled(_) => None,
    }
}

// The run that ends before it begins, since the dealer's tape has too few words; no message is sent.
fn run_undealt(
    alloc: Global,
    need: u128,
    have: u64,
    delivery: &Delivery,
) -> Result<DeliveredRun, DeliveryErr>
    ensures { IsUndealt need have (delivery_seen delivery.now) result }
{
    match first_entry(delivery) {
        Some(link) => Err(DeliveryErr::EmptyLink {
            entry: 0,
            link,
            sent: 0,
        }),
        None => Ok(DeliveredRun {
            report: undealt(alloc, need, have),
            delivered: Vec::new(alloc),
        }),
    }
}

/// What comes of inputs that are not dealt.
pub(crate) fn run_refused(
    alloc: Global,
    refusal: DealErr,
    delivery: &Delivery,
) -> Result<DeliveredRun, DeliveryErr>
    ensures { IsUndealtBy refusal (delivery_seen delivery.now) result }
{
    match refusal {
        DealErr::TapeShort { need, have } => run_undealt(alloc, need, have, delivery),
        DealErr::Memory => Err(DeliveryErr::Memory),
    }
}
