// A whole gate's words, block after block.
ghost use Rattle.std.specs.Prelude.{◌≡◌, ◌≤◌, ◌++◌, length, IfOk, OnOk};
ghost use Rattle.proto_core.specs.declared.party.Number.{Number as NumberValue};
ghost use Rattle.blocked_protocol.specs.Blocked.{blocked};
ghost use Rattle.joint_run.specs.Three.{each_of, joint};
ghost use Rattle.joint_run.specs.Exchanges.{protocol_of, IsSized};
ghost use Rattle.tape_twin.specs.Maps.{block_map};

use crate::made::MadeTapes;
use crate::row::view_row;
use crate::way::ViewMap;
use gates::BLOCK_LEN;
use joint_run::{Exchange, Operands};
use proto_core::Number;
use std::alloc::{AllocError, Global};

/// One block's words after those that were made.
fn push_block(
    map: ViewMap,
    exchange: Exchange,
    operands: &Operands,
    made: &mut MadeTapes,
) -> Result<(), AllocError>
    requires short { length operands.now.u.first ≤ 512 }
    requires sized { IsSized (protocol_of exchange) (length operands.now.u.first) (joint operands.now) }
    ensures words { OnOk result ((k : NumberValue) → each_of made.new k
        ≡ each_of made.old k ++ block_map map.way (protocol_of exchange) (length operands.now.u.first) map.miner (joint operands.now) k) }
    ensures len { OnOk result ((k : NumberValue) →
        length (block_map map.way (protocol_of exchange) (length operands.now.u.first) map.miner (joint operands.now) k)
        ≡ (protocol_of exchange).draws (length operands.now.u.first) k) }
{
    let first = view_row(map, exchange, operands, Number::One);
    let second = view_row(map, exchange, operands, Number::Two);
    let third = view_row(map, exchange, operands, Number::Three);
    made.extend(first.words(), second.words(), third.words())
}

/// The words of an exchange of any number of elements, in blocks of 512 and a last one with the rest: those that a miner's view is made
/// of, or on the way back those that are drawn.
pub fn map_gate(
    alloc: Global,
    map: ViewMap,
    exchange: Exchange,
    operands: Operands,
) -> Result<MadeTapes, AllocError>
    requires sized { IsSized (protocol_of exchange) (length operands.u.first) (joint operands) }
    ensures words { IfOk result (λ made. (k : NumberValue) → each_of made k
        ≡ block_map map.way (blocked (protocol_of exchange)) (length operands.entry.u.first) map.miner (joint operands.entry) k) }
    ensures len { IfOk result (λ made. (k : NumberValue) → length (each_of made k) ≡ (protocol_of exchange).draws (length operands.entry.u.first) k) }
{
    let mut made = MadeTapes::new(alloc);
    let mut rest = operands;
    while rest.len() > 0 {
        let m = rest.len().min(BLOCK_LEN as usize);
        let (block, behind) = rest.split(exchange, m);
        push_block(map, exchange, &block, &mut made)?;
        rest = behind;
    }
    Ok(made)
}
