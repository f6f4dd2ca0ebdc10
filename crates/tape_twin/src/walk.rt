// A list of gates, one after another.
ghost use Rattle.std.specs.Prelude.{◌≡◌, IfOk, IfErr};
ghost use Rattle.proto_core.specs.declared.party.Number.{Number as NumberValue};
ghost use Rattle.joint_run.specs.Three.{each_of, values_of};
ghost use Rattle.joint_run.specs.JointRuns.{IsEven, CanRun};
ghost use Rattle.joint_run.specs.declared.joint_err.JointErr.TheVariants.{Memory};
ghost use Rattle.tape_twin.specs.Maps.{run_map};

use crate::gate::{Passing, Placed, pass_gate};
use crate::made::MadeTapes;
use crate::way::TapeMap;
use gates::Gate;
use joint_run::{JointErr, SharedValues, Tapes};
use std::alloc::Global;

/// The three miners' tapes of a run of gates, on values that were dealt, mapped for what a miner or the client sees, or back: each gate's
/// words by the row of the one who looks, words after the last as they are.
///
/// An error tells why the gates can't be run: one does not suit the values before it, a tape ends within it, or no memory is left. Where
/// they can be run, it is for want of memory.
pub fn map_gates(
    alloc: Global,
    map: TapeMap,
    gates: &[Gate],
    dealt: &SharedValues,
    tapes: Tapes,
) -> Result<MadeTapes, JointErr>
    requires { IsEven (values_of dealt.now) }
    ensures words { IfOk result (λ made. (k : NumberValue) → each_of made k
        ≡ run_map map (values_of dealt.now) gates.now (each_of tapes.entry) k) }
    ensures memory { IfErr result (λ err. CanRun (values_of dealt.now) gates.now (each_of tapes.entry) → err ≡ Memory) }
{
    let mut shares = SharedValues::new(alloc);
    let mut passing = Passing {
        rest: tapes,
        made: MadeTapes::new(alloc),
    };
    for place in 0..gates.len() {
        let gate = &gates[place];
        shares = pass_gate(
            alloc,
            map,
            Placed { place, gate },
            dealt,
            shares,
            &mut passing,
        )?;
    }
    let Passing { rest, mut made } = passing;
    made.extend(rest.first, rest.second, rest.third)?;
    Ok(made)
}
