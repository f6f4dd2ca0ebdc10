// What runs code.
use crate::registers::received;
use bytecode::Register;
use std::alloc::{AllocError, Global};
use value_steps::Value;

/// Where a call comes back to: the number of the function, the place of the step after the call, the function's registers, and the
/// register of the result, if one is wanted.
pub struct Caller {
    pub(crate) function: usize,
    pub(crate) place: usize,
    pub(crate) registers: Vec<Value>,
    pub(crate) result: Option<Register>,
}

// Written out, so that who gives a caller up calls this once, and doesn't take the caller apart in its place.
impl Drop for Caller {
    fn drop(self) {
        match self {
            Caller {
                function: _,
                place: _,
                registers: _,
                result: _,
            } => {}
        }
    }
}

impl Caller {
    ghost use Rattle.std.specs.Prelude.{◌≡◌, length};
    ghost use Rattle.bytecode.specs.Raw.{RawCode};
    ghost use Rattle.verified_code.specs.InMemory.{place_of};
    ghost use Rattle.value_steps.specs.Views.{value_seen};
    ghost use Rattle.code_machine.specs.Changes.{resumed};
    ghost use Rattle.code_machine.specs.Standing.{HasAny};
    ghost use Rattle.code_machine.specs.Views.{caller_seen, machine_seen};

    /// A caller goes on with a result.
    pub(crate) fn go_on(self, machine: &mut Machine, value: Value)
        requires { HasAny (length self.registers.items) (place_of self.result) }
        ensures changed { (code : RawCode) → machine_seen code machine.new
            ≡ resumed (caller_seen code self) (value_seen value) (machine_seen code machine.old).stack }
        ensures function { machine.new.function ≡ self.function }
        ensures count { length machine.new.registers.items ≡ length self.registers.items }
        ensures callers { machine.new.callers.items ≡ machine.old.callers.items }
    {
        match self {
            Caller {
                function,
                place,
                registers,
                result,
            } => {
                machine.registers = received(registers, result, value);
                machine.function = function;
                machine.place = place;
            }
        }
    }
}

/// A machine: the number of the function that runs, the place of the next step, the function's registers, and who called, the last
/// one last.
pub struct Machine {
    pub(crate) function: usize,
    pub(crate) place: usize,
    pub(crate) registers: Vec<Value>,
    pub(crate) callers: Vec<Caller>,
}

// Written out, so that who gives a machine up calls this once, and doesn't take the machine apart in its place.
impl Drop for Machine {
    fn drop(self) {
        match self {
            Machine {
                function: _,
                place: _,
                registers: _,
                callers: _,
            } => {}
        }
    }
}

impl Machine {
    ghost use Rattle.std.specs.Prelude.{◌≡◌, IfOk};
    ghost use Rattle.value_steps.specs.Views.{value_seen};
    ghost use Rattle.code_machine.specs.Standing.{IsThere};
    ghost use Rattle.code_machine.specs.Views.{kept};

    /// The value in a register.
    pub(crate) fn register(&self, register: Register) -> &Value
        requires { IsThere self.now register }
        ensures { value_seen result.now ≡ kept self.now register }
    {
        &self.registers[register.0 as usize]
    }

    /// The value of a register in memory of its own.
    pub(crate) fn copied(&self, alloc: Global, register: Register) -> Result<Value, AllocError>
        requires { IsThere self.now register }
        ensures { IfOk result (λ v. value_seen v ≡ kept self.now register) }
    {
        self.register(register).copy(alloc)
    }
}
