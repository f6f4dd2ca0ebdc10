// How a miner begins a gate.
ghost use Rattle.std.specs.Prelude.{◌≡◌, length};
ghost use Rattle.gate_node.specs.Nodes.{BeginsAs};

use crate::standing::Standing;
use gate_exchanges::{Exchanged, as_exchanged, suits};
use gates::{Gate, Values};
use proto_core::Number;

/// How a miner begins a gate, by what it was dealt, its values, and the words that were supplied and are left: with the messages of an exchange,
/// or by its own shares alone. Else it stands: the gate doesn't suit, or words are missing.
pub(crate) fn begins(
    miner: Number,
    dealt: &Values,
    values: &Values,
    tape: &[u64],
    gate: &Gate,
) -> Result<Option<Exchanged>, Standing>
    ensures { BeginsAs miner dealt.now values.now tape.now gate.now result }
{
    if !suits(gate, dealt, values) {
        return Err(Standing::Unfit);
    }
    let Some(exchanged) = as_exchanged(gate) else {
        return Ok(None);
    };
    let size = values.value(exchanged.u).len();
    let draws = exchanged.exchange.draws(size, miner);
    let there = tape.len() as u128;
    if draws > there {
        return Err(Standing::Wants(draws - there));
    }
    Ok(Some(exchanged))
}
