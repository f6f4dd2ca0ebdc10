// How a machine is changed.
ghost use Rattle.std.specs.Prelude.{◌≡◌, ◌+◌, ◌<◌, ◌^◌, IfErr, IfOk, length};
ghost use Rattle.bytecode.specs.Raw.{RawCode};
ghost use Rattle.verified_code.specs.InMemory.{place_of};
ghost use Rattle.code_machine.specs.Changes.{HasEnough, IsSafe, changed};
ghost use Rattle.code_machine.specs.declared.change.Change.TheVariants as change;
ghost use Rattle.code_machine.specs.Standing.{HasAny, Stands, StandsSomewhere};
ghost use Rattle.code_machine.specs.Views.{machine_seen};

use crate::machine::{Caller, Machine};
use crate::registers::{put, put_element, taken};
use bytecode::{FunctionPlace, Register};
use std::alloc::AllocError;
use std::mem;
use value_steps::{Value, WrittenElement};

impl Machine {
    /// A value goes to a register, and the next step comes.
    pub(crate) fn put(&mut self, to: Register, value: Value)
        requires there { to.0 < length self.old.registers.items }
        requires room { self.old.place + 1 < 2 ^ 64 }
        ensures changed { (code : RawCode) → machine_seen code self.new ≡ changed code (machine_seen code self.old) (change.Value to value) }
        ensures stands { (code : RawCode) → Stands code self.old → Stands code self.new }
    {
        put(&mut self.registers, to, value);
        self.place += 1;
    }

    /// A word is written into the value in a register, in place, and the next step comes.
    pub(crate) fn put_element(&mut self, array: Register, element: WrittenElement)
        requires safe { IsSafe self.old (change.Element array element) }
        requires room { self.old.place + 1 < 2 ^ 64 }
        ensures changed { (code : RawCode) → machine_seen code self.new ≡ changed code (machine_seen code self.old) (change.Element array element) }
        ensures stands { (code : RawCode) → Stands code self.old → Stands code self.new }
    {
        put_element(&mut self.registers, array, element);
        self.place += 1;
    }

    /// A function begins with these registers; its result goes to the caller's register, if one is named.
    pub(crate) fn enter(
        &mut self,
        function: FunctionPlace,
        to: Option<Register>,
        registers: Vec<Value>,
    ) -> Result<(), AllocError>
        requires safe { HasAny (length self.old.registers.items) (place_of to) }
        requires room { self.old.place + 1 < 2 ^ 64 }
        ensures changed { IfOk result (λ _. (code : RawCode) → machine_seen code self.new
            ≡ changed code (machine_seen code self.old) (change.Enter function to registers)) }
        ensures kept { IfErr result (λ _. (code : RawCode) → machine_seen code self.new ≡ machine_seen code self.old) }
        ensures stands { (code : RawCode) → Stands code self.old → HasEnough code (change.Enter function to registers) → Stands code self.new }
    {
        self.callers.reserve(1)?;
        let caller = Caller {
            function: self.function,
            place: self.place + 1,
            registers: mem::replace(&mut self.registers, registers),
            result: to,
        };
        self.callers.push(caller)?;
        self.function = function.0 as usize;
        self.place = 0;
        Ok(())
    }

    /// The last caller goes on with the value of a register, or with the value where none is named.
    pub(crate) fn leave(&mut self, source: Option<Register>, other: Value)
        requires safe { IsSafe self.old (change.Leave source other) }
        requires stands { StandsSomewhere self.old }
        ensures changed { (code : RawCode) → machine_seen code self.new ≡ changed code (machine_seen code self.old) (change.Leave source other) }
        ensures stands { (code : RawCode) → Stands code self.old → Stands code self.new }
    {
        let value = taken(&mut self.registers, source, other);
        if let Some(caller) = self.callers.pop() {
            caller.go_on(self, value);
        }
    }
}
