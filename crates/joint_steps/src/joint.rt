// Three miners that run gates one after another.
ghost use Rattle.std.specs.Prelude.{◌≡◌, ◌≤◌, length, IfOk, OnOk};
ghost use Rattle.gates.specs.Clear.{value};
ghost use Rattle.proto_core.specs.Parties.{of_three};
ghost use Rattle.joint_run.specs.Three.{carried, values_of};
ghost use Rattle.input_share.specs.Dealing.{need_of};
ghost use Rattle.joint_run.specs.declared.joint_err.JointErr.TheVariants.{Memory};
ghost use Rattle.joint_steps.specs.Steps.{Begins, CanStep, HasStepped};

use crate::dealt::dealt_values;
use gates::Gate;
use joint_run::{JointErr, JointRun, SharedValues, Tapes, run_gate};
use proto_core::{Link, Messages, Number};
use std::alloc::{AllocError, Global};
use value_file::Inputs;

/// Three miners that were dealt the private inputs of a file: their shares of all values that the gates so far have made, what each link has
/// carried, and the opened words.
pub struct Joint<'w> {
    pub dealt: SharedValues,
    pub run: JointRun<'w>,
}

// Written out, so that an early exit calls this once.
impl Drop for Joint<'_> {
    fn drop(self) {
        let Joint { dealt: _, run: _ } = self;
    }
}

/// Of gates that can be run, nothing but want of memory comes.
pub fn memory_wanting(refused: JointErr) -> AllocError
    requires { refused ≡ Memory }
{
    match refused {
        JointErr::Memory => AllocError,
        JointErr::Dealt | JointErr::Unsuited { .. } | JointErr::TapeEnds { .. } => unreachable!(),
    }
}

impl<'w> Joint<'w> {
    /// The inputs are dealt with these words, which have to be enough, and no gate has run.
    ///
    /// An error comes where memory runs short.
    pub fn start(alloc: Global, inputs: &Inputs, dealer: &[u64]) -> Result<Joint<'w>, AllocError>
        requires { need_of inputs.now ≤ length dealer.now }
        ensures { IfOk result (λ joint. Begins inputs.now dealer.now joint) }
    {
        let Some(dealt) = dealt_values(alloc, inputs, dealer)? else {
            unreachable!()
        };
        let none = Tapes {
            first: &[],
            second: &[],
            third: &[],
        };
        Ok(Joint {
            dealt,
            run: JointRun::new(alloc, none),
        })
    }

    /// One gate more, which has to suit the values so far, on exactly the words that each miner draws for it.
    ///
    /// An error comes where memory runs short; then a part of the gate may have run, and the next gate is not to be taken.
    pub fn step(
        &mut self,
        alloc: Global,
        gate: &Gate,
        first: &'w [u64],
        second: &'w [u64],
        third: &'w [u64],
    ) -> Result<(), AllocError>
        requires { CanStep gate.now (of_three first.now second.now third.now) self.old }
        ensures { OnOk result (HasStepped gate.now (of_three first.now second.now third.now) self.old self.new) }
    {
        self.run.tapes = Tapes {
            first,
            second,
            third,
        };
        match run_gate(alloc, 0, gate, &self.dealt, &mut self.run) {
            Ok(()) => Ok(()),
            Err(refused) => Err(memory_wanting(refused)),
        }
    }

    /// A miner's share of the value of a number.
    pub fn shares(&self, number: u64, miner: Number) -> &[u64]
        ensures { result.now ≡ value (values_of self.now.run.shares miner) number }
    {
        self.run.shares.of(miner).value(number)
    }

    /// The messages that a link has carried, oldest first.
    pub fn sent(&self, link: Link) -> &Messages
        ensures { result.now ≡ carried self.now.run.transcript.traffic link }
    {
        self.run.transcript.traffic.on(link)
    }
}
