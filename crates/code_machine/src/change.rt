// What a step changes of a machine.
ghost use Rattle.std.specs.Prelude.{◌≡◌};
ghost use Rattle.code_machine.specs.Changes.{goes_to};

use crate::machine::Machine;
use bytecode::{FunctionPlace, Register};
use std::alloc::AllocError;
use value_steps::{Halt, Value, WrittenElement};

/// What a step changes of a machine.
pub(crate) enum Change {
    /// A value goes to a register, and the next step comes.
    Value(Register, Value),
    /// A word is written into the value in a register, in place, and the next step comes.
    Element(Register, WrittenElement),
    /// The step of a place comes.
    Place(usize),
    /// A function begins with these registers; its result goes to the caller's register, if one is named.
    Enter(FunctionPlace, Option<Register>, Vec<Value>),
    /// The last caller goes on with the value of the register, or with the value where none is named.
    Leave(Option<Register>, Value),
}

// Written out, so that who gives a change up calls this once, and doesn't take the change apart in its place.
impl Drop for Change {
    fn drop(self) {
        match self {
            Change::Value(_, _)
            | Change::Element(_, _)
            | Change::Place(_)
            | Change::Enter(_, _, _)
            | Change::Leave(_, _) => {}
        }
    }
}

impl Change {
    ghost use Rattle.std.specs.Prelude.{◌≡◌, ◌+◌, ◌<◌, ◌^◌, IfErr, IfOk};
    ghost use Rattle.bytecode.specs.Raw.{RawCode};
    ghost use Rattle.code_machine.specs.Changes.{HasEnough, IsSafe, changed};
    ghost use Rattle.code_machine.specs.Standing.{Stands, StandsSomewhere};
    ghost use Rattle.code_machine.specs.Views.{machine_seen};

    /// Makes the change. An error comes where memory runs short.
    pub(crate) fn make(self, machine: &mut Machine) -> Result<(), AllocError>
        requires safe { IsSafe machine.old self }
        requires stands { StandsSomewhere machine.old }
        requires room { machine.old.place + 1 < 2 ^ 64 }
        ensures changed { IfOk result (λ _. (code : RawCode) → machine_seen code machine.new ≡ changed code (machine_seen code machine.old) self) }
        ensures kept { IfErr result (λ _. (code : RawCode) → machine_seen code machine.new ≡ machine_seen code machine.old) }
        ensures stands { (code : RawCode) → Stands code machine.old → HasEnough code self → Stands code machine.new }
    {
        match self {
            Change::Value(to, value) => {
                machine.put(to, value);
                Ok(())
            }
            Change::Element(array, element) => {
                machine.put_element(array, element);
                Ok(())
            }
            Change::Place(place) => {
                machine.place = place;
                Ok(())
            }
            Change::Enter(function, to, registers) => machine.enter(function, to, registers),
            Change::Leave(source, other) => {
                machine.leave(source, other);
                Ok(())
            }
        }
    }
}

/// The change that puts a value into a register, where one was made.
pub(crate) fn into_register(to: Register, made: Result<Value, Halt>) -> Result<Change, Halt>
    ensures { result ≡ goes_to to made }
{
    match made {
        Ok(value) => Ok(Change::Value(to, value)),
        Err(halt) => Err(halt),
    }
}
