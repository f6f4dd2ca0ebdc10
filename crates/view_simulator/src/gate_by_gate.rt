// The scripts of a list of gates, gate by gate.
ghost use Rattle.std.specs.Prelude.{◌≡◌, [], ◌++◌, length, OnOk, IfOk};
ghost use Rattle.std.specs.List.{repeat};
ghost use Rattle.proto_core.specs.declared.party.Number.{Number as NumberValue};
ghost use Rattle.protocol_model.specs.Gates.{gates_script};
ghost use Rattle.gates.specs.Blocks.{block_sizes};
ghost use Rattle.gates.specs.Clear.{Values};
ghost use Rattle.shared_gates.specs.Model.{run_gates};
ghost use Rattle.counted_net.specs.Scripts.{moves_of, AreScripts};
ghost use Rattle.view_simulator.specs.Blocks.{block_moves};
ghost use Rattle.view_simulator.specs.Sizes.{SizesFit};

use crate::block::block_moves;
use crate::script_sizes::{exchanged, push_sizes};
use counted_net::{Move, Scripts};
use gates::{Gate, blocks};
use proto_core::Number;
use std::alloc::{AllocError, Global};

/// The moves of so many blocks, after those that came before.
fn push_blocks(count: u64, block: &[Move], script: &mut Vec<Move>) -> Result<(), AllocError>
    ensures { OnOk result (script.new.items ≡ script.old.items ++ repeat count block.now) }
{
    for _done in 0..count {
        script.extend_from_slice(block)?;
    }
    Ok(())
}

/// What each miner sends and takes in a gate whose messages are about so many elements, after what it did before.
fn add_gate(size: u64, gate: &Gate, scripts: &mut Scripts) -> Result<(), AllocError>
    ensures { OnOk result ((i : NumberValue) → moves_of scripts.new i
        ≡ moves_of scripts.old i ++ repeat (length (block_sizes size)) (block_moves gate.now i)) }
{
    let count = blocks(size);
    push_blocks(count, block_moves(gate, Number::One), &mut scripts.one)?;
    push_blocks(count, block_moves(gate, Number::Two), &mut scripts.two)?;
    push_blocks(count, block_moves(gate, Number::Three), &mut scripts.three)?;
    Ok(())
}

/// What each miner sends and takes in a run of gates, by their sizes alone. `dealt` are the sizes of what was dealt, in elements.
///
/// Each gate that sends messages has to take fewer than 2^64 elements. Fails only where memory runs out.
pub fn scripts(alloc: Global, dealt: &[u64], gates: &[Gate]) -> Result<Scripts, AllocError>
    requires { SizesFit dealt.now [] gates.now }
    ensures { IfOk result (λ scripts. (shares : NumberValue → Values) →
        AreScripts (λ i. gates_script i (run_gates shares dealt.now [] gates.now)) scripts) }
{
    let mut sizes = Vec::new(alloc);
    let mut scripts = Scripts {
        one: Vec::new(alloc),
        two: Vec::new(alloc),
        three: Vec::new(alloc),
    };
    for gate in gates {
        let Some(size) = exchanged(&sizes, gate) else {
            unreachable!()
        };
        add_gate(size, gate, &mut scripts)?;
        push_sizes(dealt, gate, &mut sizes)?;
    }
    Ok(scripts)
}
