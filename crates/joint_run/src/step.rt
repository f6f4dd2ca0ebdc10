// One gate of a joint run, if it can be run.
ghost use Rattle.std.specs.Prelude.{◌≡◌, ◌≤◌, length, OnOk, IfErr};
ghost use Rattle.joint_run.specs.Three.{each_of, values_of};
ghost use Rattle.gate_exchanges.specs.Exchanges.{protocol_of};
ghost use Rattle.joint_run.specs.States.{state_of};
ghost use Rattle.joint_run.specs.Steps.{size_in};
ghost use Rattle.joint_run.specs.JointRuns.{IsEven};
ghost use Rattle.joint_run.specs.GateByGate.{HaveSizes, own_sizes, left_of, AllReach, IsShort, Lacks, RunsGate, RefusesGate};

use crate::joint_err::JointErr;
use crate::run::{JointRun, run_exchange, run_local};
use crate::shares::SharedValues;
use crate::tapes::Tapes;
use gate_exchanges::{Exchanged, as_exchanged, suits};
use gates::Gate;
use proto_core::Number;
use std::alloc::Global;

/// Whether a miner's tape has as many words as it draws for a gate of n elements.
fn check_tape(
    place: usize,
    miner: Number,
    gate: Exchanged,
    n: usize,
    tapes: &Tapes,
) -> Result<(), JointErr>
    ensures ok { OnOk result ((protocol_of gate.exchange).draws n miner ≤ length (each_of tapes.now miner)) }
    ensures err { IfErr result (IsShort ((protocol_of gate.exchange).draws n miner) (length (each_of tapes.now miner)) place miner) }
{
    let need = gate.exchange.draws(n, miner);
    let have = tapes.of(miner).len();
    if need > have as u128 {
        return Err(JointErr::TapeEnds {
            place,
            miner,
            need,
            have,
        });
    }
    Ok(())
}

/// Whether all tapes have as many words as are drawn for a gate; the first miner whose tape has not is told.
fn check_tapes(place: usize, gate: Exchanged, run: &JointRun) -> Result<(), JointErr>
    ensures ok { OnOk result (AllReach ((protocol_of gate.exchange).draws (size_in gate (state_of run.now))) (left_of (state_of run.now))) }
    ensures err { IfErr result (Lacks ((protocol_of gate.exchange).draws (size_in gate (state_of run.now))) (left_of (state_of run.now)) place) }
{
    let n = run.shares.first.value(gate.u).len();
    check_tape(place, Number::One, gate, n, &run.tapes)?;
    check_tape(place, Number::Two, gate, n, &run.tapes)?;
    check_tape(place, Number::Three, gate, n, &run.tapes)?;
    Ok(())
}

/// One gate more after those that a joint run has had, the one of this place in its list. An error tells why it can't be run: it
/// does not suit the values before it, a tape ends within it, or no memory is left; then the run may have a part of it.
pub fn run_gate(
    alloc: Global,
    place: usize,
    gate: &Gate,
    dealt: &SharedValues,
    run: &mut JointRun,
) -> Result<(), JointErr>
    requires even { IsEven (values_of dealt.now) }
    requires own { HaveSizes (own_sizes (state_of run.old)) (state_of run.old) }
    ensures ok { OnOk result (RunsGate (values_of dealt.now) gate.now (state_of run.old) (state_of run.new)) }
    ensures err { IfErr result (RefusesGate (values_of dealt.now) gate.now (state_of run.old) place) }
{
    if !suits(gate, &dealt.first, &run.shares.first) {
        return Err(JointErr::Unsuited { place });
    }
    match as_exchanged(gate) {
        None => run_local(alloc, dealt, gate, run)?,
        Some(exchanged) => {
            match check_tapes(place, exchanged, run) {
                Ok(()) => {}
                Err(short) => return Err(short),
            }
            run_exchange(alloc, exchanged, run)?;
        }
    }
    Ok(())
}
