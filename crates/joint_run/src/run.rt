// The state of a joint run, and one gate of it.
ghost use Rattle.std.specs.Prelude.{◌≡◌, ◌++◌, OnOk};
ghost use Rattle.proto_core.specs.declared.party.Number.{Number as NumberValue};
ghost use Rattle.proto_core.specs.declared.link.Link.{Link as LinkValue};
ghost use Rattle.gates.specs.Clear.{value};
ghost use Rattle.proto_core.specs.Parties.{of_three};
ghost use Rattle.joint_run.specs.Three.{each_of, joint, values_of};
ghost use Rattle.joint_run.specs.Adding.{words_of};
ghost use Rattle.joint_run.specs.RunState.{begun};
ghost use Rattle.joint_run.specs.States.{state_of};
ghost use Rattle.joint_run.specs.Steps.{CanExchange, AddsLocal, AddsExchange};
ghost use Rattle.gate_exchanges.specs.Exchanged.{second_value};

use crate::outputs::Outputs;
use crate::own_operands::{Operands, Own};
use crate::shares::SharedValues;
use crate::tapes::Tapes;
use crate::transcript::Transcript;
use crate::whole::add_gate;
use gate_exchanges::{Exchanged, local_share, second_value};
use gates::{Gate, Values};
use proto_core::Number;
use std::alloc::{AllocError, Global};

/// The joint run of a list of gates: the three miners' shares of all values that were made, what is left of their tapes, what
/// each link carried, and the opened words in order.
#[derive(Drop)]
pub struct JointRun<'a> {
    pub shares: SharedValues,
    pub tapes: Tapes<'a>,
    pub transcript: Transcript,
}

impl<'a> JointRun<'a> {
    /// No gate yet.
    pub fn new(alloc: Global, tapes: Tapes<'a>) -> Self
        ensures shares { (i : NumberValue) → (state_of result).shares i ≡ (begun (each_of tapes.entry)).shares i }
        ensures tapes { (i : NumberValue) → (state_of result).tapes i ≡ (begun (each_of tapes.entry)).tapes i }
        ensures messages { (l : LinkValue) → (state_of result).messages l ≡ (begun (each_of tapes.entry)).messages l }
        ensures opened { (state_of result).opened ≡ (begun (each_of tapes.entry)).opened }
    {
        JointRun {
            shares: SharedValues::new(alloc),
            tapes,
            transcript: Transcript::new(alloc),
        }
    }
}

/// A gate that sends nothing: each miner computes on its own shares.
pub(crate) fn run_local(
    alloc: Global,
    dealt: &SharedValues,
    gate: &Gate,
    run: &mut JointRun,
) -> Result<(), AllocError>
    ensures { OnOk result (AddsLocal (values_of dealt.now) gate.now (state_of run.old) (state_of run.new)) }
{
    let first = local_share(alloc, Number::One, &dealt.first, &run.shares.first, gate)?;
    let second = local_share(alloc, Number::Two, &dealt.second, &run.shares.second, gate)?;
    let third = local_share(alloc, Number::Three, &dealt.third, &run.shares.third, gate)?;
    run.shares.push(first, second, third)?;
    Ok(())
}

/// The operands of a gate in the miners' shares, with these words.
pub fn operands<'s>(
    gate: Exchanged,
    shares: &'s SharedValues,
    first: &'s [u64],
    second: &'s [u64],
    third: &'s [u64],
) -> Operands<'s>
    ensures u { (i : NumberValue) → (joint result).u i ≡ value (values_of shares.now i) gate.u }
    ensures v { (i : NumberValue) → (joint result).v i ≡ second_value (values_of shares.now i) gate.v }
    ensures words { (i : NumberValue) → (joint result).words i ≡ of_three first.now second.now third.now i }
{
    Operands {
        first: Own {
            u: shares.first.value(gate.u),
            v: second_value(&shares.first, gate.v),
            words: first,
        },
        second: Own {
            u: shares.second.value(gate.u),
            v: second_value(&shares.second, gate.v),
            words: second,
        },
        third: Own {
            u: shares.third.value(gate.u),
            v: second_value(&shares.third, gate.v),
            words: third,
        },
    }
}

/// The outputs of a gate as values after those that there are: one, or two.
fn keep(outputs: Outputs, two: bool, shares: &mut SharedValues) -> Result<(), AllocError>
    ensures { OnOk result ((i : NumberValue) → values_of shares.new i ≡ values_of shares.old i ++ words_of two outputs i) }
{
    let Outputs { first, second } = outputs;
    let (x1, x2, x3) = first.into_words();
    shares.push(x1, x2, x3)?;
    if two {
        let (y1, y2, y3) = second.into_words();
        shares.push(y1, y2, y3)?;
    }
    Ok(())
}

/// A gate that sends messages.
pub(crate) fn run_exchange(
    alloc: Global,
    gate: Exchanged,
    run: &mut JointRun,
) -> Result<(), AllocError>
    requires { CanExchange gate (state_of run.old) }
    ensures { OnOk result (AddsExchange gate (state_of run.old) (state_of run.new)) }
{
    let n = run.shares.first.value(gate.u).len();
    let words = run.tapes.draw(gate.exchange, n);
    let operands = operands(gate, &run.shares, words.first, words.second, words.third);
    let made = add_gate(alloc, gate.exchange, operands, &mut run.transcript)?;
    keep(made, gate.exchange.makes_two(), &mut run.shares)?;
    Ok(())
}
