// The joint run of a list of gates.
ghost use Rattle.std.specs.Prelude.{◌↔◌, IsTrue, IfOk, IfErr};
ghost use Rattle.joint_run.specs.Three.{each_of, values_of};
ghost use Rattle.joint_run.specs.States.{state_of};
ghost use Rattle.joint_run.specs.JointRuns.{IsEven, IsRun, Refuses};

use crate::joint_err::JointErr;
use crate::run::JointRun;
use crate::shares::SharedValues;
use crate::step::run_gate;
use crate::tapes::Tapes;
use gate_exchanges::same_sizes;
use gates::Gate;
use std::alloc::Global;

/// Whether the three miners' shares have the same sizes.
pub fn are_even(dealt: &SharedValues) -> bool
    ensures { IsTrue result ↔ IsEven (values_of dealt.now) }
{
    let second = same_sizes(&dealt.second, &dealt.first);
    let third = same_sizes(&dealt.third, &dealt.first);
    second && third
}

/// The joint run of a list of gates: what three miners do that were dealt these shares and draw their words from these tapes.
///
/// The answer is the definition's run: every miner's share of each value, the opened words, the messages of each link and what is
/// left of the tapes. Where there is no such run, the first gate that can't be run is told, with the reason.
pub fn joint_run<'a>(
    alloc: Global,
    gates: &[Gate],
    dealt: &SharedValues,
    tapes: Tapes<'a>,
) -> Result<JointRun<'a>, JointErr>
    ensures run { IfOk result (λ run. IsRun (values_of dealt.now) gates.now (each_of tapes.entry) (state_of run)) }
    ensures refused { IfErr result (Refuses (values_of dealt.now) gates.now (each_of tapes.entry)) }
{
    if !are_even(dealt) {
        return Err(JointErr::Dealt);
    }
    let mut run = JointRun::new(alloc, tapes);
    for place in 0..gates.len() {
        match run_gate(alloc, place, &gates[place], dealt, &mut run) {
            Ok(()) => {}
            Err(refused) => return Err(refused),
        }
    }
    Ok(run)
}
