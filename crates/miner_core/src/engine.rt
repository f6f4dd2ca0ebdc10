ghost use Rattle.std.specs.Prelude.{◌≡◌, ◌<◌, true, false, IfOk, OnOk, Ok};
ghost use Rattle.gate_node.specs.Nodes as node;
ghost use Rattle.miner_core.specs.declared.outcome.Turned.TheVariants.{Short};
ghost use Rattle.miner_core.specs.declared.engine.At.TheVariants.{Ready, Again};
ghost use Rattle.miner_core.specs.Engines.{left_with, outcome_with, told_with, all_shown, IsSoundAlways};
ghost use Rattle.miner_core.specs.Engines.{IsThroughAlways, IsOver, StandsAlways, Keeps, KeepsLinks};
ghost use Rattle.miner_core.specs.Engines.{acting, led_to, measure, GoesOn};

use crate::letting_go::Letting;
use crate::notice::{Notice, tell};
use crate::outcome::Turned;
use crate::speech::{Speech, speech_of};
use crate::stepping::{gates_from, is_done, step_alone, step_told};
use crate::task::Task;
use crate::telling::{Told, last_words, told_yet};
use code_machine::{Machine, coming_step, marked, rewind};
use gate_node::{GateNode, Standing};
use proto_core::Party;
use sc_text::Ending;
use std::alloc::{AllocError, Global};
use std::mem;
use value_steps::Stage;

/// What a miner is at.
#[derive(Drop)]
pub(crate) enum At {
    /// The next step is to be taken.
    Ready,
    /// The gates run of a step that wants words, with which it is done again.
    Again,
    /// The gates run of a step that has led so far, and tells this of all that came since.
    Acts {
        turned: Turned,
        speech: Speech,
        before: Told,
    },
    /// The run has ended.
    Over(Ending),
    /// A step was told all that was opened, and wants more.
    Short,
}

/// What a miner is at where a step has led so far, with its gates through.
fn led_to(turned: Turned) -> At
    ensures { result ≡ led_to turned }
{
    match turned {
        Turned::On => At::Ready,
        Turned::Over(ending) => At::Over(ending),
        Turned::Short => At::Short,
    }
}

/// Whether a step wants words.
fn wants_words(turned: Turned) -> bool
    ensures wants { result ≡ true → turned ≡ Short }
    ensures goes_on { result ≡ false → GoesOn turned }
{
    match turned {
        Turned::Short => true,
        Turned::On | Turned::Over(_) => false,
    }
}

/// A miner that runs code: what it runs, the machine and its stage, for how many steps fuel lasts, what it is at, its gates and links,
/// what it has told, and when it lets go values that aren't needed.
pub(crate) struct Engine<P: Party> {
    pub alloc: Global,
    pub task: Task,
    pub machine: Machine,
    pub stage: Stage<'static>,
    pub fuel: u128,
    pub at: At,
    pub node: GateNode<P>,
    pub notices: Vec<Notice>,
    pub letting: Letting,
}

// Written out, so that an early exit calls this once.
impl<P: Party> Drop for Engine<P> {
    fn drop(self) {
        let Engine {
            alloc: _,
            task: _,
            machine: _,
            stage: _,
            fuel: _,
            at: _,
            node: _,
            notices: _,
            letting: _,
        } = self;
    }
}

impl<P: Party> Engine<P> {
    /// The next step, whose gates begin. Where it makes none and tells nothing, and the run goes on, it is done with: then `true` is answered, and
    /// another step can be taken.
    #[inline(never)]
    fn begin(&mut self) -> Result<bool, AllocError>
        requires ready { self.old.at ≡ Ready }
        requires fuel { 0 < self.old.fuel }
        requires through { IsThroughAlways P.me self.old.node }
        requires sound { IsSoundAlways P.me self.old }
        ensures left { OnOk result (left_with P.me self.new ≡ left_with P.me self.old) }
        ensures kept { OnOk result (KeepsLinks self.old self.new) }
        ensures sound { OnOk result (IsSoundAlways P.me self.new) }
        ensures falls { OnOk result (measure self.new < measure self.old) }
        ensures done { IfOk result (λ done. done ≡ true → (self.new.at ≡ Ready) × IsThroughAlways P.me self.new.node) }
    {
        let from = self.stage.gates.len();
        let before = told_yet(&self.stage);
        let mark = marked(&self.stage);
        let task = &self.task;
        let coming = coming_step(&task.code, &self.machine);
        let speech = speech_of(self.alloc, coming, &self.machine)?;
        let turned = step_alone(self.alloc, task, &mut self.machine, &mut self.stage, coming)?;
        self.fuel -= 1;
        if is_done(turned, &self.stage, from, before) {
            return Ok(true);
        }
        let gates = gates_from(self.alloc, &self.stage.gates, from)?;
        self.node.add(gates)?;
        if wants_words(turned) {
            rewind(&mut self.stage, &mark);
            self.at = At::Again;
            return Ok(false);
        }
        self.at = At::Acts {
            turned,
            speech,
            before,
        };
        Ok(false)
    }

    /// The next step, and further ones as long as each is done with at once and fuel is left.
    fn row(&mut self) -> Result<(), AllocError>
        requires ready { self.old.at ≡ Ready }
        requires fuel { 0 < self.old.fuel }
        requires through { IsThroughAlways P.me self.old.node }
        requires sound { IsSoundAlways P.me self.old }
        ensures left { OnOk result (left_with P.me self.new ≡ left_with P.me self.old) }
        ensures kept { OnOk result (KeepsLinks self.old self.new) }
        ensures sound { OnOk result (IsSoundAlways P.me self.new) }
        ensures falls { OnOk result (measure self.new < measure self.old) }
    {
        loop {
            let done = self.begin()?;
            if !done || self.fuel == 0 {
                return Ok(());
            }
        }
    }

    /// The same step once more, told the value that was made last.
    #[inline(never)]
    fn again(&mut self) -> Result<(), AllocError>
        requires again { self.old.at ≡ Again }
        requires through { IsThroughAlways P.me self.old.node }
        requires sound { IsSoundAlways P.me self.old }
        ensures left { OnOk result (left_with P.me self.new ≡ left_with P.me self.old) }
        ensures kept { OnOk result (KeepsLinks self.old self.new) }
        ensures sound { OnOk result (IsSoundAlways P.me self.new) }
        ensures falls { OnOk result (measure self.new < measure self.old) }
    {
        let before = told_yet(&self.stage);
        let task = &self.task;
        let coming = coming_step(&task.code, &self.machine);
        let speech = speech_of(self.alloc, coming, &self.machine)?;
        let turned = step_told(
            self.alloc,
            task,
            &mut self.machine,
            &mut self.stage,
            coming,
            last_words(self.node.values()),
        )?;
        self.at = At::Acts {
            turned,
            speech,
            before,
        };
        Ok(())
    }

    /// A step is through with its gates: it is told, and the run goes on.
    #[inline(never)]
    fn goes_on(&mut self, turned: Turned, speech: &Speech, before: Told) -> Result<(), AllocError>
        requires through { IsThroughAlways P.me self.old.node }
        requires sound { IsSoundAlways P.me self.old }
        ensures same { OnOk result (outcome_with P.me self.new ≡ outcome_with P.me (acting self.old turned speech.now before)) }
        ensures told { OnOk result (told_with P.me self.new ≡ told_with P.me (acting self.old turned speech.now before)) }
        ensures kept { OnOk result (Keeps self.old self.new) }
        ensures node { OnOk result (self.new.node ≡ self.old.node) }
        ensures sound { OnOk result (IsSoundAlways P.me self.new) }
        ensures falls { OnOk result (measure self.new < measure (acting self.old turned speech.now before)) }
    {
        let last = last_words(self.node.values());
        tell(
            self.alloc,
            speech,
            before,
            &self.stage,
            last,
            &mut self.notices,
        )?;
        self.at = led_to(turned);
        Ok(())
    }

    /// The next steps, if fuel is left, up to one that isn't done with at once. Before them, what isn't needed any more is let go; after them the
    /// array into which the last one stores, where it can be, and the values of its plan of gates as soon as they aren't needed.
    fn ready(&mut self) -> Result<bool, AllocError>
        requires ready { self.old.at ≡ Ready }
        requires through { IsThroughAlways P.me self.old.node }
        requires sound { IsSoundAlways P.me self.old }
        ensures same { OnOk result (all_shown (outcome_with P.me self.new) ≡ all_shown (outcome_with P.me self.old)) }
        ensures told { OnOk result (told_with P.me self.new ≡ told_with P.me self.old) }
        ensures kept { OnOk result (Keeps self.old self.new) }
        ensures sound { OnOk result (IsSoundAlways P.me self.new) }
        ensures falls { IfOk result (λ more. more ≡ true → measure self.new < measure self.old) }
        ensures over { IfOk result (λ more. more ≡ false → IsOver P.me self.new self.new.at × IsThroughAlways P.me self.new.node) }
    {
        if self.fuel == 0 {
            return Ok(false);
        }
        self.let_go()?;
        self.row()?;
        self.store_in_place()?;
        self.want_needed()?;
        Ok(true)
    }

    /// What comes next where all gates are through; false where nothing does.
    fn turn(&mut self) -> Result<bool, AllocError>
        requires through { IsThroughAlways P.me self.old.node }
        requires sound { IsSoundAlways P.me self.old }
        ensures same { OnOk result (all_shown (outcome_with P.me self.new) ≡ all_shown (outcome_with P.me self.old)) }
        ensures told { OnOk result (told_with P.me self.new ≡ told_with P.me self.old) }
        ensures kept { OnOk result (Keeps self.old self.new) }
        ensures sound { OnOk result (IsSoundAlways P.me self.new) }
        ensures falls { IfOk result (λ more. more ≡ true → measure self.new < measure self.old) }
        ensures over { IfOk result (λ more. more ≡ false → IsOver P.me self.new self.new.at × IsThroughAlways P.me self.new.node) }
    {
        match mem::replace(&mut self.at, At::Ready) {
            At::Ready => {
                let more = self.ready()?;
                Ok(more)
            }
            At::Again => {
                self.at = At::Again;
                self.again()?;
                Ok(true)
            }
            At::Acts {
                turned,
                speech,
                before,
            } => {
                self.goes_on(turned, &speech, before)?;
                Ok(true)
            }
            At::Over(ending) => {
                self.at = At::Over(ending);
                Ok(false)
            }
            At::Short => {
                self.at = At::Short;
                Ok(false)
            }
        }
    }

    /// Does all that the messages and the words that were supplied lead to, and answers where it then stands. What it has done, tells, and
    /// does with the messages that are there, is the same before and after, whatever words come.
    pub fn advance(&mut self) -> Result<Standing, AllocError>
        requires sound { IsSoundAlways P.me self.old }
        ensures same { OnOk result (all_shown (outcome_with P.me self.new) ≡ all_shown (outcome_with P.me self.old)) }
        ensures told { OnOk result (told_with P.me self.new ≡ told_with P.me self.old) }
        ensures stands { IfOk result (λ s. StandsAlways P.me s self.new) }
        ensures sound { OnOk result (IsSoundAlways P.me self.new) }
        ensures kept { OnOk result (Keeps self.old self.new) }
    {
        loop {
            let standing = self.gates()?;
            match standing {
                Standing::Through => {}
                Standing::Waits(..) => return Ok(standing),
                Standing::Unfit => return Ok(standing),
                Standing::Wants(_) => return Ok(standing),
            }
            let more = self.turn()?;
            if !more {
                return Ok(standing);
            }
        }
    }

    /// The gates that have begun, as far as the messages and the words that were supplied lead.
    fn gates(&mut self) -> Result<Standing, AllocError>
        requires sound { IsSoundAlways P.me self.old }
        ensures same { OnOk result (outcome_with P.me self.new ≡ outcome_with P.me self.old) }
        ensures told { OnOk result (told_with P.me self.new ≡ told_with P.me self.old) }
        ensures stands { IfOk result (λ s. node.StandsAlways P.me s self.new.node) }
        ensures sound { OnOk result (IsSoundAlways P.me self.new) }
        ensures kept { OnOk result (Keeps self.old self.new) }
        ensures beside { measure self.new ≡ measure self.old }
    {
        let standing = self.node.advance()?;
        Ok(standing)
    }
}
