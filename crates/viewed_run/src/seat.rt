// What each miner saw, by where it stands in its net.
ghost use Rattle.std.specs.Prelude.{◌≡◌, IfOk};
ghost use Rattle.proto_core.specs.declared.party.Number.TheVariants.{One, Two, Three};
ghost use Rattle.miner_core.specs.declared.kept.Kept.TheVariants.{All};
ghost use Rattle.miner_core.specs.Miners.{held};
ghost use Rattle.miner_core.specs.Streams.{ForEachTape};
ghost use Rattle.link_schedule.specs.Miners.{IsNetOf, KeepSo};
ghost use Rattle.link_schedule.specs.Streams.{StreamNet};
ghost use Rattle.viewed_run.specs.Seats.{Drew, EndsSo, SeesFrom, Sits};

use crate::parts::{front, openings, received};
use input_share::{Dealt, ShareFile};
use link_schedule::Net3;
use miner_core::Miner;
use program_views::input_shares;
use proto_core::{Link, Messages, P1, P2, P3, Party};
use sc_text::End;
use std::alloc::{AllocError, Global};
use view_text::View;

/// What a miner's view is made of: the miner, which keeps all and so has the words that it has drawn, what it was dealt, the messages that the previous and the
/// next miner have sent to it, and the links of all deliveries.
#[derive(Drop)]
pub(crate) struct Seat<'a, P: Party> {
    pub miner: &'a Miner<P>,
    pub file: &'a ShareFile,
    pub previous: &'a Messages,
    pub next: &'a Messages,
    pub order: &'a [Link],
}

/// The first miner's.
pub(crate) fn first<'a>(net: &'a Net3, files: &'a Dealt) -> Seat<'a, P1>
    requires { KeepSo All net.now }
    ensures sits { (s : StreamNet) → IsNetOf net.now s → Sits One s files.now.first result }
    ensures keeps { result.miner.now.past ≡ All }
{
    Seat {
        miner: net.miner1(),
        file: &files.first,
        previous: net.miner3().sent_to_next(),
        next: net.miner2().sent_to_previous(),
        order: net.recorded(),
    }
}

/// The second miner's.
pub(crate) fn second<'a>(net: &'a Net3, files: &'a Dealt) -> Seat<'a, P2>
    requires { KeepSo All net.now }
    ensures sits { (s : StreamNet) → IsNetOf net.now s → Sits Two s files.now.second result }
    ensures keeps { result.miner.now.past ≡ All }
{
    Seat {
        miner: net.miner2(),
        file: &files.second,
        previous: net.miner1().sent_to_next(),
        next: net.miner3().sent_to_previous(),
        order: net.recorded(),
    }
}

/// The third miner's.
pub(crate) fn third<'a>(net: &'a Net3, files: &'a Dealt) -> Seat<'a, P3>
    requires { KeepSo All net.now }
    ensures sits { (s : StreamNet) → IsNetOf net.now s → Sits Three s files.now.third result }
    ensures keeps { result.miner.now.past ≡ All }
{
    Seat {
        miner: net.miner3(),
        file: &files.third,
        previous: net.miner2().sent_to_next(),
        next: net.miner1().sent_to_previous(),
        order: net.recorded(),
    }
}

/// How a miner has ended, and at which cost.
fn end<P: Party>(miner: &Miner<P>) -> Result<End, AllocError>
    requires { miner.now.past ≡ All }
    ensures { IfOk result (λ end. ForEachTape (held miner.now) (λ s. EndsSo P.me s end)) }
{
    let cost = miner.cost();
    match miner.ending() {
        Some(how) => Ok(End { how, cost }),
        // No run of verified code ends otherwise.
        None => Err(AllocError),
    }
}

/// The words of its tape that a miner has drawn.
fn drew<P: Party>(alloc: Global, miner: &Miner<P>) -> Result<Vec<u64>, AllocError>
    requires { miner.now.past ≡ All }
    ensures { IfOk result (λ words. ForEachTape (held miner.now) (λ s. Drew P.me s words.items)) }
{
    // No miner counts more words than it was given.
    let own = front(alloc, miner.words(), miner.drawn())?;
    Ok(own)
}

/// What a miner saw that keeps all and has ended.
pub(crate) fn view<P: Party>(alloc: Global, seat: &Seat<'_, P>) -> Result<View, AllocError>
    requires { seat.now.miner.now.past ≡ All }
    ensures { IfOk result (SeesFrom P.me seat.now) }
{
    let miner = P::number();
    let end = end(seat.miner)?;
    let inputs = input_shares(alloc, seat.file.entries())?;
    let drew = drew(alloc, seat.miner)?;
    let got = received(alloc, miner, seat.previous, seat.next, seat.order)?;
    let opened = openings(alloc, seat.miner.notices())?;
    Ok(View::new(miner, inputs, drew, got, opened, end))
}
