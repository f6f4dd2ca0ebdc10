// A whole gate that sends messages, block after block.
ghost use Rattle.std.specs.Prelude.{◌≡◌, length, IfOk};
ghost use Rattle.joint_run.specs.Three.{joint};
ghost use Rattle.gate_exchanges.specs.Exchanges.{protocol_of, makes_two, IsSized};
ghost use Rattle.joint_run.specs.Adding.{AddsGate};

use crate::blocks::add_block;
use crate::outputs::Outputs;
use crate::own_operands::Operands;
use crate::transcript::Transcript;
use gate_exchanges::Exchange;
use gates::BLOCK_LEN;
use std::alloc::{AllocError, Global};

/// A gate that sends messages, on operands of any length, in blocks of 512 elements and a last one with the rest. What is said
/// goes to the transcript; the answer is what the miners have of the values that are made.
pub fn add_gate(
    alloc: Global,
    exchange: Exchange,
    operands: Operands,
    transcript: &mut Transcript,
) -> Result<Outputs, AllocError>
    requires sized { IsSized (protocol_of exchange) (length operands.u.first) (joint operands) }
    ensures { IfOk result (λ made. AddsGate (makes_two exchange) (protocol_of exchange) (length operands.entry.u.first) (joint operands.entry)
        transcript.old transcript.new made) }
{
    let mut outputs = Outputs::new(alloc);
    let mut rest = operands;
    while rest.len() > 0 {
        let m = rest.len().min(BLOCK_LEN as usize);
        let (block, behind) = rest.split(exchange, m);
        add_block(exchange, &block, transcript, &mut outputs)?;
        rest = behind;
    }
    Ok(outputs)
}
