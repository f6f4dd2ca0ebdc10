// What the simulator has a miner see.
ghost use Rattle.std.specs.Prelude.{◌≡◌, ◌≤◌, ◌-◌, true, length, take, IfOk};
ghost use Rattle.proto_core.specs.declared.party.Number.{Number as NumberValue};
ghost use Rattle.joint_run.specs.Three.{each_of};
ghost use Rattle.language_model.specs.Learned.{learned_of};
ghost use Rattle.view_model.specs.TapeMaps.{miners_of};
ghost use Rattle.program_views.specs.Views.{can_deal};
ghost use Rattle.view_simulator.specs.Making.{CanBeMade, made_in_order, seen_in_order, seen_of};

use crate::dealing::suffices;
use crate::entries::made_entries;
use crate::learned::learned_words;
use crate::made_gates::made_run;
use clear_eval::Report;
use gates::Gate;
use input_share::ShareEntry;
use joint_run::Tapes as MinersTapes;
use program_views::{Arrival, arrivals};
use proto_core::{Link, Number};
use std::alloc::{AllocError, Global};
use tape_file::Tapes;
use value_file::PublicPart;
use view_model::own_shares;

/// What the simulator has a miner see: its input shares, the words that it drew, and the messages that came, in order of arrival.
#[derive(Drop)]
pub(crate) struct Made {
    pub inputs: Vec<ShareEntry>,
    pub drew: Vec<u64>,
    pub got: Vec<Arrival>,
}

/// The miners' tapes, of which no word is drawn yet.
fn whole_tapes<'a>(tapes: &'a Tapes) -> MinersTapes<'a>
    ensures { (k : NumberValue) → each_of result k ≡ miners_of tapes.now k }
{
    MinersTapes {
        first: tapes.miner1(),
        second: tapes.miner2(),
        third: tapes.miner3(),
    }
}

/// The words that were drawn of a tape of which these are left.
fn drawn(alloc: Global, tape: &[u64], left: &[u64]) -> Result<Vec<u64>, AllocError>
    requires { length left.now ≤ length tape.now }
    ensures { IfOk result (λ words. words.items ≡ take (length tape.now - length left.now) tape.now) }
{
    tape[..tape.len() - left.len()].to_vec(alloc)
}

/// What the simulator has a miner see of gates that open these words, where the dealer's tape suffices for the inputs, with the links in this order.
fn made_dealt(
    alloc: Global,
    miner: Number,
    part: &PublicPart,
    gates: &[Gate],
    opened: &[u64],
    tapes: &Tapes,
    order: &[Link],
) -> Result<Made, AllocError>
    requires dealt { can_deal part.now tapes.now ≡ true }
    requires runs { CanBeMade part.now gates.now tapes.now }
    ensures { IfOk result (λ made. seen_of made ≡ made_in_order miner part.now gates.now opened.now tapes.now order.now) }
{
    let inputs = made_entries(alloc, miner, part, tapes.dealer())?;
    let own = own_shares(alloc, &inputs)?;
    let whole = whole_tapes(tapes);
    let tape = whole.of(miner);
    let made = made_run(alloc, miner, gates, own, opened, whole)?;
    let drew = drawn(alloc, tape, made.left.of(miner))?;
    let got = arrivals(alloc, miner, &made.mails.previous, &made.mails.next, order)?;
    Ok(Made { inputs, drew, got })
}

/// What the simulator has a miner see of such a run, with the links in this order; where the dealer's tape is too short, nothing.
pub(crate) fn made_seen(
    alloc: Global,
    miner: Number,
    part: &PublicPart,
    report: &Report,
    tapes: &Tapes,
    order: &[Link],
) -> Result<Made, AllocError>
    requires { CanBeMade part.now report.now.gates.items tapes.now }
    ensures { IfOk result (λ made.
        seen_of made ≡ seen_in_order miner part.now report.now.gates.items (learned_of report.now.events.items) tapes.now order.now) }
{
    if suffices(part.entries(), tapes.dealer().len()) {
        let opened = learned_words(alloc, &report.events)?;
        made_dealt(alloc, miner, part, &report.gates, &opened, tapes, order)
    } else {
        Ok(Made {
            inputs: Vec::new(alloc),
            drew: Vec::new(alloc),
            got: Vec::new(alloc),
        })
    }
}
