// An engine at its start, a message that comes, and where it stands.
ghost use Rattle.std.specs.Prelude.{◌≡◌, ◌≤◌, ◌++◌, ℕ, List, length, true, false, IfOk, OnOk};
ghost use Rattle.outside.specs.Tapes.{TapesState};
ghost use Rattle.block_steps.specs.Outcomes.{mail_left};
ghost use Rattle.miner_core.specs.Drawing.{Draws, Delivers, IsAtItsEnd};
ghost use Rattle.miner_core.specs.Engines.{engine_left, ended_by, ending_at, end_by, with_words, IsSoundAlways, Rests};
ghost use Rattle.miner_core.specs.Past.{Past, with_past};
ghost use Rattle.miner_core.specs.Story.{Story, Leads, story_of, received, start_of, IsAnswerOf};
ghost use Rattle.miner_core.specs.Streams.{IsOfMessage};

use crate::answer::{End, Lost, MinerErr, Step};
use crate::engine::{At, Engine};
use crate::letting_go::Letting;
use crate::task::Task;
use code_machine::{most_steps, start};
use gate_node::{GateNode, Standing};
use gates::Values;
use outside::TapeSource;
use proto_core::{Link, Party};
use sc_text::Ending;
use std::alloc::{AllocError, Global};
use value_steps::Stage;

impl<P: Party> Engine<P> {
    /// Before the first step, with the first words of its tape.
    pub fn new(
        alloc: Global,
        task: Task,
        dealt: Values,
        tape: Vec<u64>,
        budget: u64,
    ) -> Result<Self, AllocError>
        ensures story { IfOk result (λ e. story_of e budget ≡ start_of task dealt tape.items budget) }
        ensures leads { IfOk result (λ e. (more : List ℕ) → Leads P.me (with_words e more) (start_of task dealt (tape.items ++ more) budget)) }
    {
        let fuel = most_steps(&task.code, budget);
        let stage = Stage::new(alloc, budget, &[]);
        let machine = start(alloc, &task.code)?;
        Ok(Engine {
            alloc,
            task,
            machine,
            stage,
            fuel,
            at: At::Ready,
            node: GateNode::new(alloc, dealt, tape),
            notices: Vec::new(alloc),
            letting: Letting { done: 0, next: 0 },
        })
    }

    /// A message of these words comes from one of the two others.
    fn receive(&mut self, link: Link, words: &[u64]) -> Result<(), AllocError>
        requires sound { IsSoundAlways P.me self.old }
        requires few { length words.now ≤ 2048 }
        ensures leads { OnOk result ((past : Past) (more : List ℕ) (s : Story) → Leads P.me (with_words (with_past past self.old) more) s →
            Leads P.me (with_words (with_past past self.new) more) (received P.me s link words.now)) }
        ensures story { OnOk result ((budget : ℕ) → story_of self.new budget ≡ received P.me (story_of self.old budget) link words.now) }
        ensures sound { OnOk result (IsSoundAlways P.me self.new) }
        ensures tape { OnOk result (self.new.node.tape ≡ self.old.node.tape) }
    {
        if link == P::number().previous().link_to_next() {
            self.node.receive_words_from_previous(words)?;
            return Ok(());
        }
        self.node.receive_words_from_next(words)?;
        Ok(())
    }

    /// A message of these words comes, and all is done that the messages and the tape lead to; where it then stands.
    pub fn deliver<T: TapeSource>(
        &mut self,
        link: Link,
        words: &[u64],
        tapes: &mut T,
    ) -> Result<Standing, Lost>
        requires sound { IsSoundAlways P.me self.old }
        requires few { length words.now ≤ 2048 }
        ensures delivers { IfOk result (λ standing. Delivers P.me standing link words.now self.old self.new (T.state tapes.old) (T.state tapes.new)) }
        ensures draws { Draws P.me (T.state tapes.old) (T.state tapes.new) result }
    {
        self.receive(link, words)?;
        let standing = self.run_on(tapes)?;
        Ok(standing)
    }

    /// Whether it has ended, where it stands so, whatever words come.
    pub fn is_ended(&self, standing: Standing) -> bool
        ensures ended { result ≡ true → (more : List ℕ) → Rests P.me standing (with_words self.now more) → IsAtItsEnd P.me self.now more }
        ensures going { result ≡ false → (more : List ℕ) → Rests P.me standing (with_words self.now more) → IsAtItsEnd P.me self.now more → ⊥ }
    {
        match standing {
            Standing::Waits(..) => false,
            Standing::Through => true,
            Standing::Unfit => true,
            Standing::Wants(_) => true,
        }
    }

    /// How the run has ended, where all gates are through.
    fn end(&self) -> End
        ensures { result ≡ end_by self.now.at }
    {
        match &self.at {
            At::Over(ending) => End::Over(*ending),
            At::Short => End::Short,
            At::Ready | At::Again | At::Acts { .. } => End::Endless,
        }
    }

    /// How the run has ended, if it has, where all gates are through.
    fn over(&self) -> Option<Ending>
        ensures { result ≡ ended_by self.now.at }
    {
        match &self.at {
            At::Over(ending) => Some(*ending),
            At::Ready | At::Again | At::Acts { .. } | At::Short => None,
        }
    }

    /// How the run has ended, if it has, where it stands so.
    pub fn ending(&self, standing: Standing) -> Option<Ending>
        ensures { result ≡ ending_at standing self.now.at }
    {
        match standing {
            Standing::Through => self.over(),
            Standing::Waits(..) | Standing::Unfit | Standing::Wants(_) => None,
        }
    }

    /// What is answered, where it stands so, whatever words come.
    pub fn answer(&self, standing: Standing) -> Result<Step, MinerErr>
        ensures stands { (more : List ℕ) → Rests P.me standing (with_words self.now more) →
            IsAnswerOf (engine_left P.me (with_words self.now more)) (mail_left P.me self.now.node.links) result }
        ensures of_message { IsOfMessage result }
    {
        match standing {
            Standing::Through => {
                let end = self.end();
                Ok(Step::Ended(end))
            }
            Standing::Unfit => Ok(Step::Ended(End::Unfit)),
            Standing::Wants(_) => Ok(Step::Ended(End::Unfit)),
            Standing::Waits(link, cause) => match cause {
                None => Ok(Step::Waits(link)),
                Some(cause) => Err(MinerErr::BadMessage { link, cause }),
            },
        }
    }
}
