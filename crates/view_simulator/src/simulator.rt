// The simulator, gate by gate.
ghost use Rattle.std.specs.Prelude.{◌≡◌, ◌≤◌, ℕ, List, ◌∷◌, [], ◌++◌, length, drop, OnOk};
ghost use Rattle.proto_core.specs.declared.party.Number.{Number as NumberValue};
ghost use Rattle.proto_core.specs.Strand.{Ends};
ghost use Rattle.protocol_model.specs.Gates.{needed, sizes_of};
ghost use Rattle.gates.specs.Clear.{Values as ValuesOf, value};
ghost use Rattle.shared_gates.specs.Model.{SizesSuit, sizes_made};
ghost use Rattle.joint_run.specs.Exchanges.{protocol_of};
ghost use Rattle.joint_run.specs.Three.{each_of};
ghost use Rattle.block_steps.specs.Outcomes.{mail_left};
ghost use Rattle.gate_node.specs.OwnGates.{Whole, own_gates};
ghost use Rattle.gate_node.specs.Nodes.{engine_left, with_links, Keeps};
ghost use Rattle.view_simulator.specs.Sources.{Reach};
ghost use Rattle.view_simulator.specs.Standing.{past};
ghost use Rattle.view_simulator.specs.Simulators.{EndsOn, more_previous, more_next, joined_in, gate_in, standing_of, IsThrough, Rests, Receives};

use crate::blocks::add_blocks;
use crate::mails::Mails;
use crate::sources::{Sources, cut, draw, opens};
use gate_node::GateNode;
use gates::Gate;
use joint_run::{Exchanged, Tapes, as_exchanged};
use proto_core::{Messages, Party};
use std::alloc::{AllocError, Global};

/// What a miner's own part in the gates is at, the messages that came, and what is left of the opened words and of the tapes.
#[derive(Drop)]
pub(crate) struct Simulator<'a, P: Party> {
    pub node: GateNode<P>,
    pub mails: Mails,
    pub opened: &'a [u64],
    pub tapes: Tapes<'a>,
}

/// The messages from this place of a list on come to a miner from its previous one.
fn deliver_previous<P: Party>(
    messages: &Messages,
    from: usize,
    node: &mut GateNode<P>,
) -> Result<(), AllocError>
    ensures { OnOk result (node.new ≡ with_links node.old (more_previous node.old.links (drop from messages.now))) }
{
    for at in from..messages.len() {
        if let Some(message) = messages.get(at) {
            node.receive_from_previous(&message)?;
        }
    }
    Ok(())
}

/// The messages from this place of a list on come to a miner from its next one.
fn deliver_next<P: Party>(
    messages: &Messages,
    from: usize,
    node: &mut GateNode<P>,
) -> Result<(), AllocError>
    ensures { OnOk result (node.new ≡ with_links node.old (more_next node.old.links (drop from messages.now))) }
{
    for at in from..messages.len() {
        if let Some(message) = messages.get(at) {
            node.receive_from_next(&message)?;
        }
    }
    Ok(())
}

/// A gate is run by a miner whose gates so far are through: to its end, where the messages that are there lead to it.
fn run_one<P: Party>(alloc: Global, gate: &Gate, node: &mut GateNode<P>) -> Result<(), AllocError>
    requires { engine_left P.me node.old ≡ Ends (Whole node.old.values node.old.tape.1) }
    ensures through { OnOk result ((all : ValuesOf) (tape : List ℕ) →
        EndsOn (own_gates P.me node.old.dealt (gate.now ∷ []) node.old.values node.old.tape.1) (mail_left P.me node.old.links) (Whole all tape) →
        IsThrough P.me all tape node.new) }
    ensures kept { OnOk result (Keeps node.old node.new) }
{
    let mut gates = Vec::new(alloc);
    gates.push(gate.copy(alloc)?)?;
    node.add(gates)?;
    node.advance()?;
    Ok(())
}

impl<'a, P: Party> Simulator<'a, P> {
    /// The messages of a gate that sends messages come.
    fn receive_exchange(&mut self, gate: Exchanged) -> Result<(), AllocError>
        requires { Reach (protocol_of gate.exchange) (length (value self.old.node.values gate.u)) self.old.tapes }
        ensures { OnOk result (Receives P.me (joined_in P.me self.old gate) self.old self.new) }
    {
        let exchange = gate.exchange;
        let u = self.node.values().value(gate.u);
        let n = u.len();
        let (words, tapes_left) = draw(exchange, n, &self.tapes);
        let (opened, opened_left) = cut(self.opened, opens(exchange, n));
        let previous = self.mails.previous.len();
        let next = self.mails.next.len();
        let sources = Sources { u, words, opened };
        add_blocks(exchange, P::number(), sources, &mut self.mails)?;
        deliver_previous(&self.mails.previous, previous, &mut self.node)?;
        deliver_next(&self.mails.next, next, &mut self.node)?;
        self.opened = opened_left;
        self.tapes = tapes_left;
        Ok(())
    }

    /// The messages of a gate come, if it brings any.
    fn receive(&mut self, gate: &Gate) -> Result<(), AllocError>
        requires { (k : NumberValue) → needed (gate_in P.me self.old gate.now ∷ []) k ≤ length (each_of self.old.tapes k) }
        ensures { OnOk result (Receives P.me (gate_in P.me self.old gate.now) self.old self.new) }
    {
        match as_exchanged(gate) {
            None => Ok(()),
            Some(exchanged) => self.receive_exchange(exchanged),
        }
    }

    /// One gate more.
    pub fn add_gate(&mut self, alloc: Global, gate: &Gate) -> Result<(), AllocError>
        requires rests { Rests P.me self.old }
        requires suits { SizesSuit (sizes_of self.old.node.dealt) (sizes_of self.old.node.values) gate.now }
        requires reach { (k : NumberValue) → needed (gate_in P.me self.old gate.now ∷ []) k ≤ length (each_of self.old.tapes k) }
        ensures is { OnOk result (standing_of P.me self.new ≡ past P.me (gate_in P.me self.old gate.now ∷ []) (standing_of P.me self.old)) }
        ensures rests { OnOk result (Rests P.me self.new) }
        ensures dealt { OnOk result (self.new.node.dealt ≡ self.old.node.dealt) }
        ensures sizes { OnOk result (sizes_of self.new.node.values
            ≡ sizes_of self.old.node.values ++ sizes_made (sizes_of self.old.node.dealt) (sizes_of self.old.node.values) gate.now) }
    {
        self.receive(gate)?;
        run_one(alloc, gate, &mut self.node)?;
        Ok(())
    }
}
