// The messages that the simulator makes for a miner.
ghost use Rattle.std.specs.Prelude.{◌≡◌, ◌≤◌, [], length, IfOk};
ghost use Rattle.proto_core.specs.declared.party.Number.{Number as NumberValue};
ghost use Rattle.protocol_model.specs.Gates.{needed, sizes_of};
ghost use Rattle.shared_gates.specs.Model.{AllSizesSuit};
ghost use Rattle.joint_run.specs.Three.{each_of};
ghost use Rattle.view_simulator.specs.Made.{own_run, IsMade};

use crate::mails::Mails;
use crate::simulator::Simulator;
use gate_node::GateNode;
use gates::{Gate, Values};
use joint_run::Tapes;
use proto_core::{Number, P1, P2, P3, Party};
use std::alloc::{AllocError, Global};

/// What the simulator makes for a miner: the messages that come to it, and what is left of each miner's tape.
#[derive(Drop)]
pub struct MadeRun<'a> {
    pub mails: Mails,
    pub left: Tapes<'a>,
}

/// The same words again.
fn copied(alloc: Global, words: &[u64]) -> Result<Vec<u64>, AllocError>
    ensures { IfOk result (λ copy. copy.items ≡ words.now) }
{
    words.to_vec(alloc)
}

/// What the simulator makes for the miner `P`.
fn made_for<'a, P: Party>(
    alloc: Global,
    gates: &[Gate],
    own: Values,
    opened: &'a [u64],
    tapes: Tapes<'a>,
) -> Result<MadeRun<'a>, AllocError>
    requires suit { AllSizesSuit (sizes_of own) [] gates.now }
    requires reach { (k : NumberValue) → needed (own_run own gates.now) k ≤ length (each_of tapes k) }
    ensures { IfOk result (λ made. IsMade P.me (own_run own gates.now) opened.now (each_of tapes.entry) made) }
{
    let tape = copied(alloc, tapes.of(P::number()))?;
    let mut simulator = Simulator {
        node: GateNode::<P>::new(alloc, own, tape),
        mails: Mails::new(alloc),
        opened,
        tapes,
    };
    for gate in gates {
        simulator.add_gate(alloc, gate)?;
    }
    let Simulator { mails, tapes, .. } = simulator;
    Ok(MadeRun { mails, left: tapes })
}

/// The messages that the simulator makes for a miner in a run of gates: of its own shares of what was dealt, of the opened words, and of
/// the tapes that a view is made of. No share of another miner is read. Where an opened word is missing it is taken as 0.
///
/// Each gate has to suit the values before it, and the tapes to reach to the end of the gates. Fails only where memory runs out.
pub fn made_run<'a>(
    alloc: Global,
    miner: Number,
    gates: &[Gate],
    own: Values,
    opened: &'a [u64],
    tapes: Tapes<'a>,
) -> Result<MadeRun<'a>, AllocError>
    requires suit { AllSizesSuit (sizes_of own) [] gates.now }
    requires reach { (k : NumberValue) → needed (own_run own gates.now) k ≤ length (each_of tapes k) }
    ensures { IfOk result (λ made. IsMade miner (own_run own gates.now) opened.now (each_of tapes.entry) made) }
{
    match miner {
        Number::One => made_for::<P1>(alloc, gates, own, opened, tapes),
        Number::Two => made_for::<P2>(alloc, gates, own, opened, tapes),
        Number::Three => made_for::<P3>(alloc, gates, own, opened, tapes),
    }
}
