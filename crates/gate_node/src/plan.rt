// A plan: gates after which the values of some numbers alone are wanted, so that each other one is let go once no later gate takes it.
ghost use Rattle.std.specs.Prelude.{◌≡◌, ◌<◌, ◌≤◌, ◌↔◌, ◌==◌, ◌+◌, IsTrue, true, false, [], ◌∷◌, length};
ghost use Rattle.gates.specs.Counts.{made_by_all};
ghost use Rattle.gates.specs.Taken.{numbers_of};
ghost use Rattle.gate_node.specs.Nodes.{gates_left, to_come, HasTheSameLeft, IsSound, CanPlan, IsPlanOf, is_spent, without_spent, last_taken, Keeps};
ghost use Rattle.gate_node.specs.Plans.{is_large_plan};

use crate::engine::{AtWork, Engine};
use crate::wanted::{Wanted, count_with, is_taken};
use gates::{Gate, Operands};
use proto_core::Party;
use std::collections::BTreeSet;
use std::mem;

/// How many gates a large plan has, at least.
const MANY: usize = 8;

/// How many words a large value has, at least. Only a large one is looked for among the gates that come.
const LARGE: usize = 256;

impl<P: Party> Engine<P> {
    /// The gates that haven't begun.
    fn left(&self) -> &[Gate]
        requires within { self.now.begun ≤ length self.now.gates.items }
        ensures { result.now ≡ gates_left P.me self.now }
    {
        &self.gates.as_slice()[self.begun..]
    }

    /// Whether the gates that are left are many, and the first one takes a large value.
    pub fn is_large_plan(&self) -> bool
        requires within { self.now.begun ≤ length self.now.gates.items }
        ensures { result ≡ is_large_plan self.now.values (gates_left P.me self.now) }
    {
        let gates = self.left();
        match gates.first() {
            None => false,
            Some(gate) => {
                gates.len() >= MANY && gate.operands().first_size(&self.values) >= LARGE
            }
        }
    }

    /// Whether there are `count` values with those of the gates that are left.
    fn counts_to(&self, count: u64) -> bool
        requires within { self.now.begun ≤ length self.now.gates.items }
        ensures { result ≡ (length self.now.values + made_by_all (gates_left P.me self.now) == count) }
    {
        match count_with(self.left(), self.values.len() as u64) {
            Some(all) => all == count,
            None => false,
        }
    }

    /// Where no gate is at work, and no plan, and there will be `count` values with those of the gates that are left: after these gates the values
    /// of these numbers alone are wanted. Else all is as before.
    pub fn want_these(&mut self, numbers: BTreeSet<u64>, count: u64) -> bool
        requires sound { IsSound P.me self.old }
        ensures exactly { IsTrue result ↔ CanPlan P.me count self.old }
        ensures plan { result ≡ true → IsPlanOf P.me numbers count self.old self.new }
        ensures same { result ≡ false → self.new ≡ self.old }
        ensures sound { IsSound P.me self.new }
    {
        if !self.is_idle() || !self.wanted.is_all() || !self.counts_to(count) {
            return false;
        }
        let later = Vec::new(self.alloc);
        self.wanted = Wanted::These { numbers, later };
        true
    }

    /// Whether a value is large and not wanted after the plan, and none of the gates that are left takes it.
    fn is_spent(&self, number: u64) -> bool
        requires within { self.now.begun ≤ length self.now.gates.items }
        ensures { result ≡ is_spent P.me number self.now }
    {
        match &self.wanted {
            Wanted::All => false,
            Wanted::These { numbers, .. } => {
                self.values.value(number).len() >= LARGE
                    && !numbers.contains(&number)
                    && !is_taken(self.left(), number)
            }
        }
    }

    /// A value is let go where it is spent.
    fn let_go_spent(&mut self, number: u64)
        requires idle { self.old.work ≡ AtWork.Idle }
        requires within { self.old.begun ≤ length self.old.gates.items }
        ensures left { HasTheSameLeft P.me self.old self.new }
        ensures values { self.new.values ≡ without_spent P.me (number ∷ []) self.old }
        ensures same { self.new ≡ record self.old { values = self.new.values } }
    {
        if self.is_spent(number) {
            self.values.let_go(number);
        }
    }

    /// The numbers of the values that the last gate takes that has begun, if one has.
    fn last_taken(&self) -> Operands
        requires within { self.now.begun ≤ length self.now.gates.items }
        ensures { numbers_of result ≡ last_taken P.me self.now }
    {
        if self.begun == 0 {
            return Operands::Zero;
        }
        let gate = &self.gates[self.begun - 1];
        gate.operands()
    }

    /// Once a plan's gate is through, which is the last one that has begun, those of the values that it has taken are let go that are spent.
    pub fn let_go_operands(&mut self)
        requires idle { self.old.work ≡ AtWork.Idle }
        requires within { self.old.begun ≤ length self.old.gates.items }
        ensures left { HasTheSameLeft P.me self.old self.new }
        ensures values { self.new.values ≡ without_spent P.me (last_taken P.me self.old) self.old }
        ensures same { self.new ≡ record self.old { values = self.new.values } }
    {
        if self.wanted.is_all() {
            return;
        }
        match self.last_taken() {
            Operands::Zero => {}
            Operands::One(first) => self.let_go_spent(first),
            Operands::Two(first, second) => {
                self.let_go_spent(first);
                self.let_go_spent(second);
            }
        }
    }

    /// Where all gates of a plan are through, the values are let go that aren't wanted, and the gates after it are the next. Else there is no
    /// plan, and all is as before.
    pub fn end_plan(&mut self) -> bool
        requires idle { self.old.work ≡ AtWork.Idle }
        requires through { length self.old.gates.items ≤ self.old.begun }
        requires sound { IsSound P.me self.old }
        ensures left { HasTheSameLeft P.me self.old self.new }
        ensures falls { result ≡ true → to_come P.me self.new < to_come P.me self.old }
        ensures none { result ≡ false → (self.old.wanted ≡ Wanted.All) × (self.new ≡ self.old) }
        ensures sound { IsSound P.me self.new }
        ensures links { self.new.links ≡ self.old.links }
        ensures kept { Keeps self.old self.new }
    {
        match mem::replace(&mut self.wanted, Wanted::All) {
            Wanted::All => false,
            Wanted::These { numbers, later } => {
                self.values.keep_only(&numbers);
                self.gates = later;
                self.begun = 0;
                true
            }
        }
    }
}
