// A miner at work.
ghost use Rattle.std.specs.Prelude.{◌≡◌, ◌≤◌, [], length, map, true, None, Err, IfOk, IfSome, option_map, slice_get};
ghost use Rattle.outside.specs.Tapes.{TapesState};
ghost use Rattle.proto_core.specs.Parties.{receiver_of};
ghost use Rattle.proto_core.specs.Standing.{AtItsEnd};
ghost use Rattle.own_code.specs.Dealt.{drawn_by};
ghost use Rattle.value_steps.specs.Views.{drawn_seen};
ghost use Rattle.shared_gates.specs.Model.{miner_of};
ghost use Rattle.miner_core.specs.declared.kept.Kept.TheVariants as kept;
ghost use Rattle.miner_core.specs.Drawing.{Draws};
ghost use Rattle.miner_core.specs.Story.{start_of, sent_to_next, sent_to_previous, has_shown, has_told, stands_at, ending_in, cost_in, drawn_in, IsAnswer};
ghost use Rattle.miner_core.specs.Engines.{if_ended};
ghost use Rattle.miner_core.specs.Miners.{held, fetched_to_next, fetched_to_previous, MinerState, IsOf, IsMadeSo, HasCome, ForEachStory};
ghost use Rattle.miner_core.specs.Miners.{HasToNext, HasNoneToNext, HasToPrevious, HasNoneToPrevious};
ghost use Rattle.miner_core.specs.Streams.{story_so_far, ForEachTape, ForWordsDrawn, IsMade, IsOfMessage, Answers};
ghost use Rattle.miner_core.specs.Views.{notice_seen};
ghost use Rattle.miner_core.specs.declared.answer.MinerErr.TheVariants as error;

use crate::answer::{Lost, MinerErr, Step};
use crate::drawing::words_left;
use crate::engine::Engine;
use crate::kept::Kept;
use crate::no_tapes::NoTapes;
use crate::notice::{Notice, shown_words};
use crate::task::Task;
use gate_node::Standing;
use gates::Values;
use outside::TapeSource;
use proto_core::{Link, Messages, Msg, Number, Party};
use sc_text::Ending;
use std::alloc::{AllocError, Global};
use std::marker::Model;
use value_steps::Drawn;

/// How many messages that were fetched are let go while others of their link are held, at least.
const MANY: usize = 16;

/// A miner at work on verified code that draws its tape from a source, word by word as its gates begin. It keeps all; or it lets go what is done
/// with: messages that came once all were taken, words of its tape once all that were supplied were drawn, and the messages to each of the two
/// others once all were fetched, or many and half of those that it holds. Then it can tell no view of its run.
///
/// Contracts speak of it by the states that it may be in (`IsOf`): what it was made with, the messages that came, in order on each of its two
/// links, the words that it has drawn, how many of its tape are left in the source, and how many messages to each of the others were fetched. All
/// that it has sent, opened and told, and where it stands, is a function of these: what is said holds for every tape that begins with the words
/// drawn, and has as many after them as are left. The state of one that keeps all is what it holds (`held`).
///
/// Once memory ran out or its tape couldn't be read, it is of no further use: each delivery answers so.
pub struct Miner<P: Party> {
    engine: Engine<P>,
    rest: Standing,
    budget: u64,
    ahead: u64,
    lost: Option<Lost>,
    past: Kept,
    passed_to_next: usize,
    passed_to_previous: usize,
}

// Written out, so that an early exit calls this once.
impl<P: Party> Drop for Miner<P> {
    fn drop(self) {
        let Miner {
            engine: _,
            rest: _,
            budget: _,
            ahead: _,
            lost: _,
            past: _,
            passed_to_next: _,
            passed_to_previous: _,
        } = self;
    }
}

impl<P: Party> Model for Miner<P> {
    ghost use Rattle.miner_core.specs.Miners.{MinerSeen, MinerState, IsOf};

    ghost Value = { MinerSeen P };

    ghost view = { λ m. record {
      engine = m.engine;
      rest = m.rest;
      budget = m.budget;
      ahead = m.ahead;
      lost = m.lost;
      past = m.past;
      passed_to_next = m.passed_to_next;
      passed_to_previous = m.passed_to_previous;
    } };

    ghost invariant = { λ m. (w : MinerState) × IsOf P.me (record {
      engine = m.engine;
      rest = m.rest;
      budget = m.budget;
      ahead = m.ahead;
      lost = m.lost;
      past = m.past;
      passed_to_next = m.passed_to_next;
      passed_to_previous = m.passed_to_previous;
    }) w };
}

// How many of these words are this miner's.
fn drawn_of(drawn: Drawn, miner: Number) -> u64
    ensures { result ≡ drawn_by (drawn_seen drawn) (miner_of miner) }
{
    match miner {
        Number::One => drawn.first,
        Number::Two => drawn.second,
        Number::Three => drawn.third,
    }
}

// A number of a run that has ended; 0 while it has not.
fn if_ended(ending: Option<Ending>, number: u64) -> u64
    ensures { result ≡ if_ended ending number }
{
    match ending {
        Some(_) => number,
        None => 0,
    }
}

impl<P: Party> Miner<P> {
    /// A miner at its first wait that keeps all, with what it is to run, its shares of what was dealt, and the budget of the run. Its tape is
    /// what the source has left for it; of that it has drawn what the run up to its first wait draws.
    ///
    /// `TapeFault` comes only where the source counted a fault.
    pub fn new<T: TapeSource>(
        alloc: Global,
        task: Task,
        dealt: Values,
        budget: u64,
        tapes: &mut T,
    ) -> Result<Miner<P>, Lost>
        ensures made { IfOk result (λ m. IsMade P.me task dealt [] budget (T.state tapes.old) (T.state tapes.new) (held m)) }
        ensures past { IfOk result (λ m. m.past ≡ kept.All) }
        ensures draws { Draws P.me (T.state tapes.old) (T.state tapes.new) result }
    {
        Miner::keeping(alloc, task, dealt, budget, Kept::All, tapes)
    }

    /// The same of a miner that keeps this of what is done with.
    pub fn keeping<T: TapeSource>(
        alloc: Global,
        task: Task,
        dealt: Values,
        budget: u64,
        past: Kept,
        tapes: &mut T,
    ) -> Result<Miner<P>, Lost>
        ensures made { IfOk result (λ m. IsMadeSo P.me task dealt [] budget past (T.state tapes.old) (T.state tapes.new) m) }
        ensures draws { Draws P.me (T.state tapes.old) (T.state tapes.new) result }
    {
        Miner::begun(alloc, task, dealt, Vec::new(alloc), budget, past, tapes)
    }

    /// The same of a miner that keeps all and is given its whole tape, which no source has any word of.
    pub fn whole(
        alloc: Global,
        task: Task,
        dealt: Values,
        tape: Vec<u64>,
        budget: u64,
    ) -> Result<Miner<P>, AllocError>
        ensures story { IfOk result (λ m. story_so_far (held m) ≡ start_of task dealt tape.items budget) }
        ensures going { IfOk result (λ m. m.lost ≡ None) }
        ensures whole { IfOk result (λ m. m.ahead ≡ 0) }
        ensures past { IfOk result (λ m. m.past ≡ kept.All) }
    {
        match Miner::begun(alloc, task, dealt, tape, budget, Kept::All, &mut NoTapes) {
            Ok(miner) => Ok(miner),
            Err(_) => Err(AllocError),
        }
    }

    // With the first words of its tape.
    fn begun<T: TapeSource>(
        alloc: Global,
        task: Task,
        dealt: Values,
        first: Vec<u64>,
        budget: u64,
        past: Kept,
        tapes: &mut T,
    ) -> Result<Miner<P>, Lost>
        ensures made { IfOk result (λ m. IsMadeSo P.me task dealt first.items budget past (T.state tapes.old) (T.state tapes.new) m) }
        ensures draws { Draws P.me (T.state tapes.old) (T.state tapes.new) result }
    {
        let mut engine = Engine::new(alloc, task, dealt, first, budget)?;
        let rest = engine.run_on(tapes)?;
        engine.let_go_done(past);
        let ahead = words_left::<P, T>(tapes);
        Ok(Miner {
            engine,
            rest,
            budget,
            ahead,
            lost: None,
            past,
            passed_to_next: 0,
            passed_to_previous: 0,
        })
    }

    /// The oldest message of a link comes, which ends at this miner. All is done that the messages and the tape lead to; the answer says where
    /// the miner then stands.
    ///
    /// `NotAwaited` comes exactly where the miner has ended, and it is as before; `BadMessage` exactly where the oldest message of the
    /// awaited link isn't accepted, with the cause for which the protocol refuses it. It stays the oldest, so each later delivery answers the
    /// same, and nothing more is sent. `TapeFault` comes only where the source counted a fault in this call, or where an earlier call on this
    /// miner has answered it.
    pub fn deliver<T: TapeSource>(
        &mut self,
        link: Link,
        message: &Msg,
        tapes: &mut T,
    ) -> Result<Step, MinerErr>
        requires receiver { receiver_of link ≡ P.me }
        ensures comes { (w : MinerState) → IsOf P.me self.old w →
            HasCome P.me link message.now w self.new (T.state tapes.old) (T.state tapes.new) result }
        ensures answers { self.old.past ≡ kept.All → self.old.lost ≡ None →
            Answers P.me link message.now (held self.old) (held self.new) (T.state tapes.old) (T.state tapes.new) result }
        ensures ended { ForEachStory P.me self.old (λ s. stands_at P.me s ≡ AtItsEnd → result ≡ Err (error.NotAwaited link)) }
        ensures still { (T.state tapes.old).steady ≡ true → (T.state tapes.new).steady ≡ true }
        ensures lost { IfSome self.old.lost (λ l. (result ≡ Err (error.Lost l)) × (self.new ≡ self.old) × (tapes.new ≡ tapes.old)) }
        ensures past { self.new.past ≡ self.old.past }
    {
        self.deliver_words(link, message.words(), tapes)
    }

    /// The same of a message of these words, at most 2,048.
    pub fn deliver_words<T: TapeSource>(
        &mut self,
        link: Link,
        words: &[u64],
        tapes: &mut T,
    ) -> Result<Step, MinerErr>
        requires receiver { receiver_of link ≡ P.me }
        requires few { length words.now ≤ 2048 }
        ensures comes { (w : MinerState) → IsOf P.me self.old w →
            HasCome P.me link words.now w self.new (T.state tapes.old) (T.state tapes.new) result }
        ensures answers { self.old.past ≡ kept.All → self.old.lost ≡ None →
            Answers P.me link words.now (held self.old) (held self.new) (T.state tapes.old) (T.state tapes.new) result }
        ensures ended { ForEachStory P.me self.old (λ s. stands_at P.me s ≡ AtItsEnd → result ≡ Err (error.NotAwaited link)) }
        ensures still { (T.state tapes.old).steady ≡ true → (T.state tapes.new).steady ≡ true }
        ensures lost { IfSome self.old.lost (λ l. (result ≡ Err (error.Lost l)) × (self.new ≡ self.old) × (tapes.new ≡ tapes.old)) }
        ensures past { self.new.past ≡ self.old.past }
    {
        if let Some(lost) = self.lost {
            return Err(MinerErr::Lost(lost));
        }
        if self.engine.is_ended(self.rest) {
            return Err(MinerErr::NotAwaited { link });
        }
        match self.engine.deliver(link, words, tapes) {
            Ok(rest) => {
                self.engine.let_go_done(self.past);
                self.rest = rest;
                self.ahead = words_left::<P, T>(tapes);
                self.engine.answer(rest)
            }
            Err(lost) => {
                self.lost = Some(lost);
                Err(MinerErr::Lost(lost))
            }
        }
    }

    /// The oldest message to the next miner that wasn't fetched, where it lies; `None` exactly where all that were sent were fetched.
    pub fn oldest_to_next(&self) -> Option<&[u64]>
        ensures oldest { (w : MinerState) → IsOf P.me self.now w →
            ForEachTape w.stream (λ s. option_map (λ words. words.now) result ≡ slice_get (sent_to_next P.me s) w.to_next) }
        ensures short { IfSome result (λ words. length words.now ≤ 2048) }
    {
        self.engine.node.links().to_next().lent(self.passed_to_next)
    }

    /// The oldest message to the previous miner that wasn't fetched, where it lies; `None` exactly where all that were sent were fetched.
    pub fn oldest_to_previous(&self) -> Option<&[u64]>
        ensures oldest { (w : MinerState) → IsOf P.me self.now w →
            ForEachTape w.stream (λ s. option_map (λ words. words.now) result ≡ slice_get (sent_to_previous P.me s) w.to_previous) }
        ensures short { IfSome result (λ words. length words.now ≤ 2048) }
    {
        self.engine
            .node
            .links()
            .to_previous()
            .lent(self.passed_to_previous)
    }

    /// Lets go the messages to the next miner that were fetched, where they are many, and no fewer than the others of those that are held, and
    /// there is memory for these.
    fn let_go_first_to_next(&mut self, held: usize)
        requires { self.old.past ≡ kept.Needed }
        ensures { (w : MinerState) → IsOf P.me self.old w → IsOf P.me self.new w }
    {
        let count = self.passed_to_next;
        if count < MANY || count < held.saturating_sub(count) {
            return;
        }
        if let Ok(()) = self.engine.node.let_go_first_to_next(count) {
            self.passed_to_next = 0;
        }
    }

    /// Lets go the messages to the previous miner that were fetched, where they are many, and no fewer than the others of those that are held,
    /// and there is memory for these.
    fn let_go_first_to_previous(&mut self, held: usize)
        requires { self.old.past ≡ kept.Needed }
        ensures { (w : MinerState) → IsOf P.me self.old w → IsOf P.me self.new w }
    {
        let count = self.passed_to_previous;
        if count < MANY || count < held.saturating_sub(count) {
            return;
        }
        if let Ok(()) = self.engine.node.let_go_first_to_previous(count) {
            self.passed_to_previous = 0;
        }
    }

    /// One more of the messages to the next miner is fetched, if one is there. Once all are fetched, they are let go, unless all is kept.
    pub fn fetch_to_next(&mut self)
        ensures some { (w : MinerState) → IsOf P.me self.old w → HasToNext P.me w → IsOf P.me self.new (fetched_to_next w) }
        ensures none { (w : MinerState) → IsOf P.me self.old w → HasNoneToNext P.me w → IsOf P.me self.new w }
    {
        let held = self.engine.node.links().to_next().len();
        if self.passed_to_next >= held {
            return;
        }
        self.passed_to_next += 1;
        if let Kept::All = self.past {
            return;
        }
        if self.passed_to_next < held {
            self.let_go_first_to_next(held);
            return;
        }
        self.engine.node.let_go_sent_to_next();
        self.passed_to_next = 0;
    }

    /// One more of the messages to the previous miner is fetched, if one is there. Once all are fetched, they are let go, unless all is kept.
    pub fn fetch_to_previous(&mut self)
        ensures some { (w : MinerState) → IsOf P.me self.old w → HasToPrevious P.me w → IsOf P.me self.new (fetched_to_previous w) }
        ensures none { (w : MinerState) → IsOf P.me self.old w → HasNoneToPrevious P.me w → IsOf P.me self.new w }
    {
        let held = self.engine.node.links().to_previous().len();
        if self.passed_to_previous >= held {
            return;
        }
        self.passed_to_previous += 1;
        if let Kept::All = self.past {
            return;
        }
        if self.passed_to_previous < held {
            self.let_go_first_to_previous(held);
            return;
        }
        self.engine.node.let_go_sent_to_previous();
        self.passed_to_previous = 0;
    }

    /// Where it stands, as the last delivery has answered.
    pub fn stands(&self) -> Result<Step, MinerErr>
        ensures stands { ForEachStory P.me self.now (λ s. IsAnswer P.me s result) }
        ensures of_use { self.now.lost ≡ None → IsOfMessage result }
        ensures lost { IfSome self.now.lost (λ l. result ≡ Err (error.Lost l)) }
    {
        if let Some(lost) = self.lost {
            return Err(MinerErr::Lost(lost));
        }
        self.engine.answer(self.rest)
    }

    /// How the run has ended; `None` while it has not, as where the miner waits or has refused a message.
    pub fn ending(&self) -> Option<Ending>
        ensures { ForEachStory P.me self.now (λ s. result ≡ ending_in P.me s) }
    {
        self.engine.ending(self.rest)
    }

    /// What the run has cost; 0 while it has not ended.
    pub fn cost(&self) -> u64
        ensures { ForEachStory P.me self.now (λ s. result ≡ cost_in P.me s) }
    {
        if_ended(
            self.engine.ending(self.rest),
            self.budget.saturating_sub(self.engine.stage.left),
        )
    }

    /// How many words of its tape the run has drawn; 0 while it has not ended. A run that has ended needs no other words of its tape than those
    /// that it has drawn.
    pub fn drawn(&self) -> u64
        ensures tapes { ForEachStory P.me self.now (λ s. result ≡ drawn_in P.me s) }
        ensures alone { self.now.past ≡ kept.All → ForWordsDrawn (held self.now) (λ s. result ≡ drawn_in P.me s) }
    {
        if_ended(
            self.engine.ending(self.rest),
            drawn_of(self.engine.stage.drawn, P::number()),
        )
    }

    /// The words of its tape that it has drawn, in order. It must keep all.
    pub fn words(&self) -> &[u64]
        requires { self.now.past ≡ kept.All }
        ensures { result.now ≡ (held self.now).story.tape }
    {
        self.engine.node.supplied()
    }

    /// The messages that went to the next miner, oldest first. It must keep all.
    pub fn sent_to_next(&self) -> &Messages
        requires { self.now.past ≡ kept.All }
        ensures { ForEachTape (held self.now) (λ s. result.now ≡ sent_to_next P.me s) }
    {
        self.engine.node.links().to_next()
    }

    /// The messages that went to the previous miner, oldest first. It must keep all.
    pub fn sent_to_previous(&self) -> &Messages
        requires { self.now.past ≡ kept.All }
        ensures { ForEachTape (held self.now) (λ s. result.now ≡ sent_to_previous P.me s) }
    {
        self.engine.node.links().to_previous()
    }

    /// The words of the values that it has told as opened, one value after another; those of a truth value are 0 and 1.
    pub fn opened(&self, alloc: Global) -> Result<Vec<u64>, AllocError>
        ensures { IfOk result (λ words. ForEachStory P.me self.now (λ s. words.items ≡ has_shown P.me s)) }
    {
        let words = shown_words(alloc, &self.engine.notices)?;
        Ok(words)
    }

    /// What it has told, in order.
    pub fn notices(&self) -> &[Notice]
        ensures { ForEachStory P.me self.now (λ s. map notice_seen result.now ≡ has_told P.me s) }
    {
        &self.engine.notices
    }
}
