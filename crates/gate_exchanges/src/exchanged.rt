// Which gates send messages.
ghost use Rattle.std.specs.Prelude.{IfSome, IfNone};
ghost use Rattle.shared_gates.specs.LocalGates.{IsLocal};
ghost use Rattle.gate_exchanges.specs.Exchanged.{IsExchanged};

use crate::exchange::Exchange;
use gates::{Gate, RingKind};

/// A gate that sends messages, with the numbers of its operands.
#[derive(Clone, Copy)]
pub struct Exchanged {
    pub exchange: Exchange,
    pub u: u64,
    pub v: Option<u64>,
}

/// The gate as one that sends messages, if it is one.
pub fn as_exchanged(gate: &Gate) -> Option<Exchanged>
    ensures some { IfSome result (IsExchanged gate.now) }
    ensures none { IfNone result (IsLocal gate.now) }
{
    let (exchange, u, v) = match gate {
        Gate::Mul { left, right } => (Exchange::Product(RingKind::Arithmetic), *left, Some(*right)),
        Gate::And { left, right } => (Exchange::Product(RingKind::Boolean), *left, Some(*right)),
        Gate::Split { operand, negated } => (Exchange::Splitting(*negated), *operand, None),
        Gate::Conv { operand } => (Exchange::Conversion, *operand, None),
        Gate::Open { ring, operand } => (Exchange::Opening(*ring), *operand, None),
        Gate::Result { ring, operand } => (Exchange::Resharing(*ring), *operand, None),
        _ => return None,
    };
    Some(Exchanged { exchange, u, v })
}
