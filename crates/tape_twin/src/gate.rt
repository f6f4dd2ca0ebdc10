// One gate of a walk: its words are mapped, and the three miners' values are made of those that are drawn.
ghost use Rattle.std.specs.Prelude.{◌≡◌, ◌≤◌, [], ◌++◌, length, drop, IfOk, IfErr, OnOk};
ghost use Rattle.proto_core.specs.declared.party.Number.{Number as NumberValue};
ghost use Rattle.proto_core.specs.declared.party.Number.TheVariants.{Three};
ghost use Rattle.gates.specs.Clear.{value};
ghost use Rattle.blocked_protocol.specs.Blocked.{blocked};
ghost use Rattle.joint_run.specs.Three.{each_of, values_of};
ghost use Rattle.joint_run.specs.Exchanges.{protocol_of};
ghost use Rattle.joint_run.specs.JointRuns.{IsEven};
ghost use Rattle.joint_run.specs.GateByGate.{RefusesGate};
ghost use Rattle.joint_run.specs.declared.joint_err.JointErr.TheVariants.{Memory};
ghost use Rattle.tape_twin.specs.Maps.{block_map, looked_protocol};
ghost use Rattle.tape_twin.specs.Stands.{stand_of, begun_with, size_of_operand, drawn_for, RunsWith, TakesOperands, Passes, CanPass};

use crate::looking::looked_words;
use crate::made::MadeTapes;
use crate::taking::take_words;
use crate::way::{TapeMap, Way};
use gates::Gate;
use joint_run::{
    Exchanged, JointErr, JointRun, SharedValues, Tapes, Transcript, as_exchanged, operands,
    run_gate, suits,
};
use std::alloc::Global;

/// A gate at its place in a list.
#[derive(Clone, Copy)]
pub struct Placed<'g> {
    pub place: usize,
    pub gate: &'g Gate,
}

/// What is left of the tapes that are mapped, and the words that came of those before.
#[derive(Drop)]
pub struct Passing<'a> {
    pub rest: Tapes<'a>,
    pub made: MadeTapes,
}

/// A gate's words off the tapes, and what they are mapped to, which is put after what was made before.
fn map_exchange<'a>(
    alloc: Global,
    map: TapeMap,
    placed: Placed,
    gate: Exchanged,
    shares: &SharedValues,
    passing: &mut Passing<'a>,
) -> Result<(Tapes<'a>, MadeTapes), JointErr>
    requires { TakesOperands placed.gate.now gate (values_of shares.now) }
    ensures reach { OnOk result ((k : NumberValue) →
        (protocol_of gate.exchange).draws (size_of_operand gate (values_of shares.now)) k ≤ length (each_of passing.old.rest k)) }
    ensures given { IfOk result (λ both. (k : NumberValue) →
        each_of both.0 k ≡ (drawn_for gate (values_of shares.now) (each_of passing.old.rest)).words k) }
    ensures mapped { IfOk result (λ both. (k : NumberValue) →
        each_of both.1 k ≡ block_map map.way (looked_protocol map.looker placed.entry.gate.now (blocked (protocol_of gate.exchange)))
        (size_of_operand gate (values_of shares.now)) Three (drawn_for gate (values_of shares.now) (each_of passing.old.rest)) k) }
    ensures len { IfOk result (λ both. (k : NumberValue) →
        length (each_of both.1 k) ≡ (protocol_of gate.exchange).draws (size_of_operand gate (values_of shares.now)) k) }
    ensures made { IfOk result (λ both. (k : NumberValue) →
        each_of passing.new.made k ≡ each_of passing.old.made k ++ each_of both.1 k) }
    ensures left { OnOk result ((k : NumberValue) →
        each_of passing.new.rest k
        ≡ drop ((protocol_of gate.exchange).draws (size_of_operand gate (values_of shares.now)) k) (each_of passing.old.rest k)) }
    ensures memory { IfErr result (λ err. ((k : NumberValue) →
        (protocol_of gate.exchange).draws (size_of_operand gate (values_of shares.now)) k ≤ length (each_of passing.old.rest k)) → err ≡ Memory) }
{
    let n = shares.first.value(gate.u).len();
    let given = take_words(placed.place, gate.exchange, n, &mut passing.rest)?;
    let operands = operands(gate, shares, given.first, given.second, given.third);
    let mapped = looked_words(alloc, map, placed.gate, gate, operands)?;
    passing
        .made
        .extend(&mapped.first, &mapped.second, &mapped.third)?;
    Ok((given, mapped))
}

/// The three miners run a gate with these words: their shares of all values, those that it makes after the others.
fn run_with(
    alloc: Global,
    placed: Placed,
    dealt: &SharedValues,
    shares: SharedValues,
    words: Tapes,
) -> Result<SharedValues, JointErr>
    requires even { IsEven (values_of dealt.now) }
    requires own { IsEven (values_of shares) }
    ensures ok { IfOk result (λ after. RunsWith (values_of dealt.now) placed.entry.gate.now (values_of shares) (each_of words.entry) (values_of after)) }
    ensures err { IfErr result
        (RefusesGate (values_of dealt.now) placed.entry.gate.now (begun_with (values_of shares) (each_of words.entry)) placed.entry.place) }
{
    let mut run = JointRun {
        shares,
        tapes: words,
        transcript: Transcript::new(alloc),
    };
    match run_gate(alloc, placed.place, placed.gate, dealt, &mut run) {
        Ok(()) => Ok(run.shares),
        Err(refused) => Err(refused),
    }
}

/// One gate more: its words are mapped, and the miners' shares of what it makes stand after the others. An error comes where the gate
/// does not suit the values, a tape has fewer words than it draws, or no memory is left.
pub(crate) fn pass_gate<'a>(
    alloc: Global,
    map: TapeMap,
    placed: Placed,
    dealt: &SharedValues,
    shares: SharedValues,
    passing: &mut Passing<'a>,
) -> Result<SharedValues, JointErr>
    requires even { IsEven (values_of dealt.now) }
    requires own { IsEven (values_of shares) }
    ensures ok { IfOk result (λ after. Passes map (values_of dealt.now) placed.entry.gate.now (stand_of shares passing.old) (stand_of after passing.new)) }
    ensures err { IfErr result (λ err. CanPass (values_of dealt.now) placed.entry.gate.now (stand_of shares passing.old) → err ≡ Memory) }
{
    if !suits(placed.gate, &dealt.first, &shares.first) {
        return Err(JointErr::Unsuited {
            place: placed.place,
        });
    }
    match as_exchanged(placed.gate) {
        None => run_with(alloc, placed, dealt, shares, no_words()),
        Some(gate) => {
            let (given, mapped) = map_exchange(alloc, map, placed, gate, &shares, passing)?;
            match map.way {
                Way::ToView => run_with(alloc, placed, dealt, shares, given),
                Way::FromView => run_with(alloc, placed, dealt, shares, mapped.as_tapes()),
            }
        }
    }
}

/// No word of any miner.
fn no_words() -> Tapes<'static>
    ensures { (k : NumberValue) → each_of result k ≡ [] }
{
    Tapes {
        first: &[],
        second: &[],
        third: &[],
    }
}
