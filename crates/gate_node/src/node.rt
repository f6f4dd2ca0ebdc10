ghost use Rattle.std.specs.Prelude.{◌≡◌, ◌≤◌, ◌↔◌, ℕ, IsTrue, true, false, List, [], length, drop, IfOk, IfErr, OnOk, OnErr};
ghost use Rattle.std.specs.Ordering.{nat_cmp};
ghost use Rattle.std.specs.BTreeSet.{contains};
ghost use Rattle.outside.specs.Tapes.{TapesState, left_of};
ghost use Rattle.gates.specs.Clear.{value};
ghost use Rattle.gates.specs.Held.{kept_only};
ghost use Rattle.proto_core.specs.Strand.{then_do};
ghost use Rattle.block_steps.specs.Inboxes.{LetsGo};
ghost use Rattle.block_steps.specs.Outcomes.{came_from_previous, came_from_next};
ghost use Rattle.gate_node.specs.OwnGates.{then_gates};
ghost use Rattle.gate_node.specs.Nodes.{engine_left, StandsAlways, Keeps, HasStored, IsAhead, IsSameButGates, IsSameButValues, with_links};
ghost use Rattle.gate_node.specs.Nodes.{gates_left, filled, DoesTheSame, HasTheSameLeft, ComesTo, IsDone, CanStore, CanPlan, IsPlanOf};
ghost use Rattle.gate_node.specs.Plans.{is_large_plan};
ghost use Rattle.gate_node.specs.Supplies.{SuppliesFrom, IsUnsupplied};

use crate::engine::{AtWork, Engine};
use crate::standing::Standing;
use crate::supply_err::SupplyErr;
use crate::tape::Tape;
use crate::wanted::Wanted;
use block_steps::Links;
use gates::{Gate, Values};
use outside::TapeSource;
use proto_core::{Msg, Party};
use std::alloc::{AllocError, Global};
use std::collections::BTreeSet;
use std::marker::Model;

/// A miner that runs gates on its own shares. Contracts see what it has, and by `engine_left` what is left for it to do.
///
/// Its tape may be supplied little by little. What is promised holds for whatever words come after those that were supplied (`filled`); where
/// none come, it holds for these.
///
/// After an error, which comes only where memory runs out, it is of no further use, where nothing else is said: no more is
/// known of it.
pub struct GateNode<P: Party> {
    engine: Engine<P>,
}

// Written out, so that an early exit calls this once.
impl<P: Party> Drop for GateNode<P> {
    fn drop(self) {
        let GateNode { engine: _ } = self;
    }
}

impl<P: Party> Model for GateNode<P> {
    ghost use Rattle.gate_node.specs.declared.engine.Engine.{Engine as EngineValue};
    ghost use Rattle.gate_node.specs.Nodes.{IsSound};

    ghost Value = { EngineValue P };

    ghost view = { λ n. n.engine };

    ghost invariant = { λ n. IsSound P.me n.engine };
}

impl<P: Party> GateNode<P> {
    /// A miner with its shares of what was dealt, and the first words of its tape; there is no gate, and no message came.
    pub fn new(alloc: Global, dealt: Values, tape: Vec<u64>) -> Self
        ensures dealt { result.dealt ≡ dealt }
        ensures values { result.values ≡ [] }
        ensures tape { result.tape ≡ (tape.items, tape.items) }
        ensures left { (more : List ℕ) → ComesTo P.me [] result more }
        ensures from_previous { result.links.from_previous ≡ ([], []) }
        ensures from_next { result.links.from_next ≡ ([], []) }
        ensures to_next { result.links.to_next ≡ [] }
        ensures to_previous { result.links.to_previous ≡ [] }
        ensures opened { result.links.opened.items ≡ [] }
    {
        GateNode {
            engine: Engine {
                alloc,
                dealt,
                values: Values::new(alloc),
                tape: Tape::new(tape),
                gates: Vec::new(alloc),
                begun: 0,
                work: AtWork::Idle,
                wanted: Wanted::All,
                links: Links::new(alloc),
            },
        }
    }

    /// Further words of its tape, so many of a party's, drawn from a source where they are to lie; else all is as before.
    ///
    /// `Memory` comes before any word is asked for, and `Failed` only where the source counted a fault.
    pub fn supply_from<T: TapeSource>(
        &mut self,
        party: u8,
        count: usize,
        tapes: &mut T,
    ) -> Result<(), SupplyErr>
        requires party { party ≤ 3 }
        requires enough { count ≤ left_of (T.state tapes.old) party }
        ensures ok { OnOk result (SuppliesFrom party count self.old self.new (T.state tapes.old) (T.state tapes.new)) }
        ensures err { OnErr result (self.new ≡ self.old) }
        ensures cause { IfErr result (IsUnsupplied (T.state tapes.old) (T.state tapes.new)) }
        ensures still { (T.state tapes.old).steady ≡ true → (T.state tapes.new).steady ≡ true }
    {
        self.engine.tape.supply_from(party, count, tapes)
    }

    /// Further gates, after those before; with no memory left nothing else is to be done than before. Gates that have begun are let go once
    /// all have.
    pub fn add(&mut self, gates: Vec<Gate>) -> Result<(), AllocError>
        ensures left { OnOk result ((more : List ℕ) → engine_left P.me (filled self.new more)
            ≡ then_do (engine_left P.me (filled self.old more)) (then_gates P.me self.old.dealt gates.items)) }
        ensures err { OnErr result (HasTheSameLeft P.me self.old self.new) }
        ensures kept { IsSameButGates self.old self.new }
    {
        self.engine.add(gates)
    }

    /// Lets go its shares of all values but those of these numbers, where all gates are through and all values are wanted: a value that was let
    /// go has no words from then on.
    pub fn keep_only(&mut self, numbers: &BTreeSet<u64>)
        ensures through { (more : List ℕ) → ComesTo P.me self.old.values self.old more → ComesTo P.me self.new.values self.new more }
        ensures let_go { IsDone self.old → self.new.values ≡ kept_only numbers.now self.old.values }
        ensures as_many { length self.new.values ≡ length self.old.values }
        ensures kept { (k : ℕ) → IsTrue (contains nat_cmp numbers.now k) → value self.new.values k ≡ value self.old.values k }
        ensures same { IsSameButValues self.old self.new }
    {
        self.engine.keep_only(numbers);
    }

    /// Runs the gates that are left, where they send nothing and the last one is a store into the array of this number, with which there are
    /// `count` values: it is done in place, so that nothing of the array is copied, and the array is let go. Else only some that send nothing
    /// may be run.
    pub fn store_in_place(&mut self, array: u64, count: u64) -> Result<bool, AllocError>
        ensures stored { IfOk result (λ done. done ≡ true → HasStored P.me array count self.old self.new) }
        ensures ahead { IfOk result (λ done. done ≡ false → IsAhead P.me self.old self.new) }
        ensures exactly { IfOk result (λ done. IsTrue done ↔ CanStore P.me array count self.old) }
    {
        self.engine.store_in_place(array, count)
    }

    /// Whether eight gates or more are left, of which the first takes a value of 256 words or more.
    pub fn is_large_plan(&self) -> bool
        ensures { result ≡ is_large_plan self.now.values (gates_left P.me self.now) }
    {
        self.engine.is_large_plan()
    }

    /// The gates that are left are a plan, after which its shares of the values of these numbers alone are wanted: each other value is let go
    /// once all are through, and one of 256 words or more once a gate has taken it and no later gate of the plan takes it. It has no words from
    /// then on.
    ///
    /// With those of these gates there must be `count` values in all, and no gate may be at work, and no plan; else all is as before, and
    /// `false` is answered.
    pub fn want_these(&mut self, numbers: BTreeSet<u64>, count: u64) -> bool
        ensures exactly { IsTrue result ↔ CanPlan P.me count self.old }
        ensures plan { result ≡ true → IsPlanOf P.me numbers count self.old self.new }
        ensures same { result ≡ false → self.new ≡ self.old }
    {
        self.engine.want_these(numbers, count)
    }

    /// A message comes from the previous miner; with no memory left all is as before.
    pub fn receive_from_previous(&mut self, message: &Msg) -> Result<(), AllocError>
        ensures ok { OnOk result (self.new ≡ with_links self.old (came_from_previous self.old.links message.now)) }
        ensures err { OnErr result (self.new ≡ self.old) }
    {
        self.engine.links.receive_from_previous(message)
    }

    /// A message comes from the next miner; with no memory left all is as before.
    pub fn receive_from_next(&mut self, message: &Msg) -> Result<(), AllocError>
        ensures ok { OnOk result (self.new ≡ with_links self.old (came_from_next self.old.links message.now)) }
        ensures err { OnErr result (self.new ≡ self.old) }
    {
        self.engine.links.receive_from_next(message)
    }

    /// A message of these words comes from the previous miner; with no memory left all is as before.
    pub fn receive_words_from_previous(&mut self, words: &[u64]) -> Result<(), AllocError>
        requires { length words.now ≤ 2048 }
        ensures ok { OnOk result (self.new ≡ with_links self.old (came_from_previous self.old.links words.now)) }
        ensures err { OnErr result (self.new ≡ self.old) }
    {
        self.engine.links.receive_words_from_previous(words)
    }

    /// A message of these words comes from the next miner; with no memory left all is as before.
    pub fn receive_words_from_next(&mut self, words: &[u64]) -> Result<(), AllocError>
        requires { length words.now ≤ 2048 }
        ensures ok { OnOk result (self.new ≡ with_links self.old (came_from_next self.old.links words.now)) }
        ensures err { OnErr result (self.new ≡ self.old) }
    {
        self.engine.links.receive_words_from_next(words)
    }

    /// Lets go the messages that came, of each link on which all were taken.
    pub fn let_go_taken(&mut self)
        ensures previous { LetsGo self.old.links.from_previous self.new.links.from_previous }
        ensures next { LetsGo self.old.links.from_next self.new.links.from_next }
        ensures previous_left { self.new.links.from_previous.1 ≡ self.old.links.from_previous.1 }
        ensures next_left { self.new.links.from_next.1 ≡ self.old.links.from_next.1 }
        ensures same { self.new ≡ with_links self.old
            (record self.old.links { from_previous = self.new.links.from_previous; from_next = self.new.links.from_next }) }
    {
        self.engine.links.let_go_taken();
    }

    /// Lets go the messages that went to the next miner.
    pub fn let_go_sent_to_next(&mut self)
        ensures { self.new ≡ with_links self.old (record self.old.links { to_next = [] }) }
    {
        self.engine.links.let_go_sent_to_next();
    }

    /// Lets go the messages that went to the previous miner.
    pub fn let_go_sent_to_previous(&mut self)
        ensures { self.new ≡ with_links self.old (record self.old.links { to_previous = [] }) }
    {
        self.engine.links.let_go_sent_to_previous();
    }

    /// Lets go the first messages that went to the next miner, so many of them; with no memory left all is as before.
    pub fn let_go_first_to_next(&mut self, count: usize) -> Result<(), AllocError>
        ensures ok { OnOk result (self.new ≡ with_links self.old (record self.old.links { to_next = drop count self.old.links.to_next })) }
        ensures err { OnErr result (self.new ≡ self.old) }
    {
        self.engine.links.let_go_first_to_next(count)
    }

    /// Lets go the first messages that went to the previous miner, so many of them; with no memory left all is as before.
    pub fn let_go_first_to_previous(&mut self, count: usize) -> Result<(), AllocError>
        ensures ok { OnOk result (self.new ≡ with_links self.old (record self.old.links { to_previous = drop count self.old.links.to_previous })) }
        ensures err { OnErr result (self.new ≡ self.old) }
    {
        self.engine.links.let_go_first_to_previous(count)
    }

    /// Lets go the words of its tape that were supplied, once all were drawn.
    pub fn let_go_drawn(&mut self)
        ensures lets_go { LetsGo self.old.tape self.new.tape }
        ensures left { self.new.tape.1 ≡ self.old.tape.1 }
        ensures same { self.new ≡ record self.old { tape = self.new.tape } }
    {
        self.engine.tape.let_go();
    }

    /// Does all that the messages and the words that were supplied lead to, and answers where it then stands. What it has done, and does with
    /// the messages that are there, is the same before and after.
    pub fn advance(&mut self) -> Result<Standing, AllocError>
        ensures same { OnOk result (DoesTheSame P.me self.old self.new) }
        ensures stands { IfOk result (λ standing. StandsAlways P.me standing self.new) }
        ensures kept { OnOk result (Keeps self.old self.new) }
    {
        self.engine.advance()
    }

    /// The words of its tape that were supplied.
    pub fn supplied(&self) -> &[u64]
        ensures { result.now ≡ self.now.tape.0 }
    {
        self.engine.tape.supplied()
    }

    /// Its shares of what was dealt.
    pub fn dealt(&self) -> &Values
        ensures { result.now ≡ self.now.dealt }
    {
        &self.engine.dealt
    }

    /// Its shares of the values that gates have made.
    pub fn values(&self) -> &Values
        ensures { result.now ≡ self.now.values }
    {
        &self.engine.values
    }

    /// What came, what was sent, and the words that were opened.
    pub fn links(&self) -> &Links
        ensures { result.now ≡ self.now.links }
    {
        &self.engine.links
    }
}
