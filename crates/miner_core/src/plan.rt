// What a miner lets go while the gates of a step run: values that none of the later gates takes, and nothing names after the step.
ghost use Rattle.std.specs.Prelude.{◌≡◌, ◌-◌, true, IsTrue, IfOk, OnOk};
ghost use Rattle.std.specs.BTreeSet.{contains};
ghost use Rattle.std.specs.Ordering.{nat_cmp};
ghost use Rattle.bytecode.specs.Raw.{RawCode};
ghost use Rattle.code_machine.specs.Views.{machine_seen};
ghost use Rattle.own_code.specs.Named.{AreAmong, MachineNames};
ghost use Rattle.miner_core.specs.Engines.{left_with, all_forgetting, measure, IsSoundAlways, KeepsLinks, LeadsOn};

use crate::engine::{At, Engine};
use crate::outcome::Turned;
use proto_core::Party;
use std::alloc::AllocError;
use std::collections::BTreeSet;

impl<P: Party> Engine<P> {
    /// Whether the gates of the step at work are a large plan, and another step comes after it.
    fn plans(&self) -> bool
        ensures leads { result ≡ true → LeadsOn self.now.at }
    {
        let At::Acts {
            turned: Turned::On,
            ..
        } = &self.at
        else {
            return false;
        };
        self.node.is_large_plan()
    }

    /// The numbers of the values that its machine names after the step at work, and of the one that the step makes last.
    fn needed_after(&self) -> Result<BTreeSet<u64>, AllocError>
        ensures named { IfOk result (λ numbers. (code : RawCode) →
            AreAmong (MachineNames (machine_seen code self.now.machine)) (λ k. IsTrue (contains nat_cmp numbers k))) }
        ensures last { IfOk result (λ numbers. IsTrue (contains nat_cmp numbers (self.now.stage.made - 1))) }
    {
        let mut numbers = self.machine.named(self.alloc)?;
        numbers.insert(self.stage.made.saturating_sub(1))?;
        Ok(numbers)
    }

    /// Where the gates of the step at work are a large plan, its miner is told which values are needed after the step, so that each other one
    /// is let go once none of the gates takes it any more. What is left to do, and all that is sent, opened and told then, is the same.
    #[inline(never)]
    pub fn want_needed(&mut self) -> Result<(), AllocError>
        requires sound { IsSoundAlways P.me self.old }
        ensures left { OnOk result (all_forgetting (left_with P.me self.new) ≡ all_forgetting (left_with P.me self.old)) }
        ensures kept { OnOk result (KeepsLinks self.old self.new) }
        ensures sound { OnOk result (IsSoundAlways P.me self.new) }
        ensures beside { measure self.new ≡ measure self.old }
    {
        if !self.plans() {
            return Ok(());
        }
        let numbers = self.needed_after()?;
        self.node.want_these(numbers, self.stage.made);
        Ok(())
    }
}
