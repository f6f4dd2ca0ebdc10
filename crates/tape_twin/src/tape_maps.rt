// The tapes of a whole run, mapped.
ghost use Rattle.std.specs.Prelude.{◌≡◌, IfOk};
ghost use Rattle.joint_run.specs.Three.{values_of};
ghost use Rattle.joint_run.specs.JointRuns.{IsEven};
ghost use Rattle.joint_run.specs.JointRuns as joint;
ghost use Rattle.tape_twin.specs.Maps.{run_map};
ghost use Rattle.view_model.specs.TapeMaps.{miners_of, four_of, to_simulated, from_simulated, CanRun};

use crate::dealer::seen_dealer;
use crate::walk::map_gates;
use crate::way::{Looker, TapeMap, Way};
use gates::Gate;
use joint_run::{SharedValues, Tapes as MinersTapes};
use joint_steps::{dealt_values, memory_wanting};
use proto_core::Number;
use std::alloc::{AllocError, Global};
use tape_file::Tapes;
use value_file::Inputs;

/// The same tapes.
pub(crate) fn copied(alloc: Global, tapes: &Tapes) -> Result<Tapes, AllocError>
    ensures { IfOk result (λ copy. copy ≡ tapes.now) }
{
    let dealer = tapes.dealer().to_vec(alloc)?;
    let one = tapes.miner1().to_vec(alloc)?;
    let two = tapes.miner2().to_vec(alloc)?;
    let three = tapes.miner3().to_vec(alloc)?;
    Ok(Tapes::new(dealer, one, two, three))
}

/// The miners' tapes, mapped on what was dealt, with these words of the dealer.
pub(crate) fn mapped(
    alloc: Global,
    map: TapeMap,
    gates: &[Gate],
    dealt: &SharedValues,
    dealer: Vec<u64>,
    tapes: &Tapes,
) -> Result<Tapes, AllocError>
    requires even { IsEven (values_of dealt.now) }
    requires runs { joint.CanRun (values_of dealt.now) gates.now (miners_of tapes.now) }
    ensures { IfOk result (λ made. made ≡ four_of dealer.items (run_map map (values_of dealt.now) gates.now (miners_of tapes.now))) }
{
    let own = MinersTapes {
        first: tapes.miner1(),
        second: tapes.miner2(),
        third: tapes.miner3(),
    };
    match map_gates(alloc, map, gates, dealt, own) {
        Ok(made) => Ok(Tapes::new(dealer, made.first, made.second, made.third)),
        Err(refused) => Err(memory_wanting(refused)),
    }
}

/// The tapes that a miner's view of the run of these gates is made of: as many words of each party, and its own as they are. Where the
/// dealer's tape is too short for the inputs, dealing ends the run, and all words stay.
///
/// An error comes where memory runs short.
pub fn to_simulated(
    alloc: Global,
    miner: Number,
    inputs: &Inputs,
    gates: &[Gate],
    tapes: &Tapes,
) -> Result<Tapes, AllocError>
    requires { CanRun inputs.now gates.now tapes.now }
    ensures { IfOk result (λ made. made ≡ to_simulated miner inputs.now gates.now tapes.now) }
{
    let Some(dealt) = dealt_values(alloc, inputs, tapes.dealer())? else {
        return copied(alloc, tapes);
    };
    let seen = seen_dealer(alloc, miner, inputs, &dealt, tapes.dealer())?;
    let way = Way::ToView;
    let looker = Looker::Miner(miner);
    mapped(alloc, TapeMap { looker, way }, gates, &dealt, seen, tapes)
}

/// The way back: the tapes of the run whose view is made of these.
///
/// An error comes where memory runs short.
pub fn from_simulated(
    alloc: Global,
    miner: Number,
    inputs: &Inputs,
    gates: &[Gate],
    tapes: &Tapes,
) -> Result<Tapes, AllocError>
    requires { CanRun inputs.now gates.now tapes.now }
    ensures { IfOk result (λ made. made ≡ from_simulated miner inputs.now gates.now tapes.now) }
{
    let Some(seen) = dealt_values(alloc, inputs, tapes.dealer())? else {
        return copied(alloc, tapes);
    };
    let dealer = seen_dealer(alloc, miner, inputs, &seen, tapes.dealer())?;
    let Some(dealt) = dealt_values(alloc, inputs, &dealer)? else {
        unreachable!()
    };
    let way = Way::FromView;
    let looker = Looker::Miner(miner);
    mapped(alloc, TapeMap { looker, way }, gates, &dealt, dealer, tapes)
}
