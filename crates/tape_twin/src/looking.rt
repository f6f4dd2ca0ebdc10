// The words of a gate by the rows of one who looks at it.
ghost use Rattle.std.specs.Prelude.{◌≡◌, length, IfOk};
ghost use Rattle.proto_core.specs.declared.party.Number.{Number as NumberValue};
ghost use Rattle.proto_core.specs.declared.party.Number.TheVariants.{Three};
ghost use Rattle.blocked_protocol.specs.Blocked.{blocked};
ghost use Rattle.joint_run.specs.Three.{each_of, joint};
ghost use Rattle.joint_run.specs.Exchanges.{protocol_of, IsSized};
ghost use Rattle.gate_exchanges.specs.Exchanged.{IsExchanged};
ghost use Rattle.tape_twin.specs.Maps.{block_map, looked_protocol};

use crate::blockwise::map_gate;
use crate::client_rows::client_words;
use crate::made::MadeTapes;
use crate::way::{Looker, TapeMap, ViewMap};
use gates::Gate;
use joint_run::{Exchanged, Operands};
use std::alloc::{AllocError, Global};

/// The words of a gate that sends messages: those that what the one who looks sees is made of, or on the way back those that are drawn.
pub(crate) fn looked_words(
    alloc: Global,
    map: TapeMap,
    gate: &Gate,
    exchanged: Exchanged,
    operands: Operands,
) -> Result<MadeTapes, AllocError>
    requires is { IsExchanged gate.now exchanged }
    requires sized { IsSized (protocol_of exchanged.exchange) (length operands.u.first) (joint operands) }
    ensures words { IfOk result (λ made. (k : NumberValue) → each_of made k
        ≡ block_map map.way (looked_protocol map.looker gate.now (blocked (protocol_of exchanged.exchange))) (length operands.entry.u.first) Three
        (joint operands.entry) k) }
    ensures len { IfOk result (λ made. (k : NumberValue) →
        length (each_of made k) ≡ (protocol_of exchanged.exchange).draws (length operands.entry.u.first) k) }
{
    let way = map.way;
    match map.looker {
        Looker::Miner(miner) => {
            map_gate(alloc, ViewMap { miner, way }, exchanged.exchange, operands)
        }
        Looker::Client => client_words(alloc, way, exchanged.exchange, &operands),
    }
}
