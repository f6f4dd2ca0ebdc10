// What a miner lets go: between two steps values that nothing can name any more, and the list of its gates; after a step the array into
// which it has stored; and, where no view is told, messages that it has taken and words that it has drawn.
ghost use Rattle.std.specs.Prelude.{◌≡◌, ◌-◌, ◌&&◌, ◌||◌, ℕ, length, nat_eq, nat_le, nat_lt, IsTrue, IfSome, IfOk, OnOk};
ghost use Rattle.std.specs.BTreeSet.{contains};
ghost use Rattle.std.specs.Ordering.{nat_cmp};
ghost use Rattle.bytecode.specs.Raw.{RawCode};
ghost use Rattle.code_machine.specs.Named.{is_in, is_in_any};
ghost use Rattle.code_machine.specs.Views.{machine_seen};
ghost use Rattle.driven_nodes.specs.Steps.{last_of};
ghost use Rattle.own_code.specs.Named.{AreAmong, MachineNames};
ghost use Rattle.miner_core.specs.declared.engine.At.TheVariants.{Ready};
ghost use Rattle.miner_core.specs.declared.kept.Kept.TheVariants as kept;
ghost use Rattle.miner_core.specs.Engines.{left_with, all_forgetting, measure, IsSoundAlways, IsThroughAlways, KeepsLinks, LeadsOn};
ghost use Rattle.miner_core.specs.Past.{IsLighter, HoldsLittle};

use crate::engine::{At, Engine};
use crate::kept::Kept;
use crate::outcome::Turned;
use crate::telling::last_words;
use gates::Gate;
use proto_core::Party;
use std::alloc::AllocError;
use std::collections::BTreeSet;

/// How many values are made, at least, before a miner lets go some again, where they are small.
const STRIDE: usize = 1024;

/// How many words a large value has, at least.
const LARGE: usize = 4096;

/// How many words an array has, at least, that is let go where it is stored into.
const ARRAY: usize = 32;

/// When values are let go: how many there were when it was done last, or when an array was last stored into in place; and from how many on it is
/// done again, whatever their size.
#[derive(Clone, Copy)]
pub(crate) struct Letting {
    pub done: usize,
    pub next: usize,
}

impl<P: Party> Engine<P> {
    /// Whether it is time: enough values were made since it was done last, or some were and the last one is large. Only where the values
    /// are all that its gates have made is it known which are not needed.
    fn lets_go_now(&self) -> bool
        ensures { result ≡ (nat_le self.now.letting.next (length self.now.node.values)
            || (nat_lt self.now.letting.done (length self.now.node.values) && nat_le 4096 (length (last_of self.now.node.values))))
            && nat_eq self.now.stage.made (length self.now.node.values) }
    {
        let values = self.node.values();
        let count = values.len();
        let large = self.letting.done < count && last_words(values).len() >= LARGE;
        (self.letting.next <= count || large) && self.stage.made == count as u64
    }

    /// The numbers of the values that its machine names, and of the one that was made last.
    fn needed(&self) -> Result<BTreeSet<u64>, AllocError>
        ensures exactly { IfOk result (λ numbers. (k : ℕ) → contains nat_cmp numbers k
            ≡ (is_in self.now.machine.registers.items k || is_in_any self.now.machine.callers.items k) || nat_eq (length self.now.node.values - 1) k) }
        ensures named { IfOk result (λ numbers. (code : RawCode) →
            AreAmong (MachineNames (machine_seen code self.now.machine)) (λ k. IsTrue (contains nat_cmp numbers k))) }
        ensures last { IfOk result (λ numbers. IsTrue (contains nat_cmp numbers (length self.now.node.values - 1))) }
    {
        let mut numbers = self.machine.named(self.alloc)?;
        let last = self.node.values().len().saturating_sub(1);
        numbers.insert(last as u64)?;
        Ok(numbers)
    }

    /// Where it is time, values that aren't needed are let go, and the list of the gates that have run. What is left to do, and all that
    /// is sent, opened and told then, is the same.
    #[inline(never)]
    pub fn let_go(&mut self) -> Result<(), AllocError>
        requires ready { self.old.at ≡ Ready }
        requires through { IsThroughAlways P.me self.old.node }
        requires sound { IsSoundAlways P.me self.old }
        ensures left { OnOk result (all_forgetting (left_with P.me self.new) ≡ all_forgetting (left_with P.me self.old)) }
        ensures kept { OnOk result (KeepsLinks self.old self.new) }
        ensures ready { self.new.at ≡ Ready }
        ensures fuel { self.new.fuel ≡ self.old.fuel }
        ensures through { OnOk result (IsThroughAlways P.me self.new.node) }
        ensures sound { OnOk result (IsSoundAlways P.me self.new) }
    {
        if !self.lets_go_now() {
            return Ok(());
        }
        let numbers = self.needed()?;
        self.node.keep_only(&numbers);
        self.stage.gates.clear();
        let done = self.node.values().len();
        let next = done.saturating_add(numbers.len().max(STRIDE));
        self.letting = Letting { done, next };
        Ok(())
    }

    /// The number of the array into which the step at work has stored last, where it is large, and nothing names it after the step. No more
    /// registers are looked through than it has words.
    fn spent(&self) -> Option<u64>
        ensures leads { IfSome result (λ array. LeadsOn self.now.at) }
        ensures frees { IfSome result (λ array. (code : RawCode) → MachineNames (machine_seen code self.now.machine) array → ⊥) }
    {
        let At::Acts {
            turned: Turned::On,
            ..
        } = &self.at
        else {
            return None;
        };
        let values = self.node.values();
        if self.stage.made <= values.len() as u64 {
            return None;
        }
        let Some(Gate::Put { operand, .. }) = self.stage.gates.last() else {
            return None;
        };
        let size = values.value(*operand).len();
        if size >= ARRAY && self.machine.is_free_of(*operand, size) {
            Some(*operand)
        } else {
            None
        }
    }

    /// Where the step at work stores into an array that nothing names after it, it is stored in place, and the array is let go. What is left
    /// to do, and all that is sent, opened and told then, is the same. No more words are held than before, so nothing large is left to let go.
    #[inline(never)]
    pub fn store_in_place(&mut self) -> Result<(), AllocError>
        requires sound { IsSoundAlways P.me self.old }
        ensures left { OnOk result (all_forgetting (left_with P.me self.new) ≡ all_forgetting (left_with P.me self.old)) }
        ensures kept { OnOk result (KeepsLinks self.old self.new) }
        ensures sound { OnOk result (IsSoundAlways P.me self.new) }
        ensures beside { measure self.new ≡ measure self.old }
    {
        let Some(array) = self.spent() else {
            return Ok(());
        };
        if self.node.store_in_place(array, self.stage.made)? {
            self.letting.done = self.node.values().len();
        }
        Ok(())
    }

    /// Lets go the messages that came, of each link on which all were taken, and the words that were supplied, once all were drawn; nothing where
    /// all is kept.
    pub fn let_go_done(&mut self, past: Kept)
        ensures lighter { IsLighter self.old self.new }
        ensures little { past ≡ kept.Needed → HoldsLittle self.new }
        ensures same { past ≡ kept.All → self.new ≡ self.old }
    {
        match past {
            Kept::All => {}
            Kept::Needed => {
                self.node.let_go_taken();
                self.node.let_go_drawn();
            }
        }
    }
}
