// The registers of a function.
ghost use Rattle.std.specs.Prelude.{◌≡◌, ◌<◌, length};
ghost use Rattle.language_model.specs.Evaluation.{put};
ghost use Rattle.language_model.specs.Values.{size};
ghost use Rattle.verified_code.specs.InMemory.{place_of};
ghost use Rattle.named_values.specs.Machine.{received};
ghost use Rattle.value_steps.specs.Views.{value_seen, written};
ghost use Rattle.code_machine.specs.Changes.{returned};
ghost use Rattle.code_machine.specs.Standing.{HasAny};
ghost use Rattle.code_machine.specs.Views.{registers_seen};

use bytecode::Register;
use std::mem;
use value_steps::{Value, WrittenElement};

/// A value goes to a register.
pub(crate) fn put(registers: &mut Vec<Value>, register: Register, value: Value)
    requires { register.0 < length registers.old.items }
    ensures put { registers_seen registers.new.items ≡ put register.0 (value_seen value) (registers_seen registers.old.items) }
    ensures count { length registers.new.items ≡ length registers.old.items }
{
    registers[register.0 as usize] = value;
}

/// A word is written into the value in a register.
pub(crate) fn put_element(registers: &mut Vec<Value>, register: Register, element: WrittenElement)
    requires there { register.0 < length registers.old.items }
    requires within { element.index < size (registers_seen registers.old.items register.0) }
    ensures put { registers_seen registers.new.items
        ≡ put register.0 (written (registers_seen registers.old.items register.0) element) (registers_seen registers.old.items) }
    ensures count { length registers.new.items ≡ length registers.old.items }
{
    element.write_to(&mut registers[register.0 as usize]);
}

/// The value of a register, taken out, or the other value where no register is named.
pub(crate) fn taken(registers: &mut Vec<Value>, source: Option<Register>, other: Value) -> Value
    requires { HasAny (length registers.old.items) (place_of source) }
    ensures { value_seen result ≡ returned (place_of source) (value_seen other) (registers_seen registers.old.items) }
{
    match source {
        Some(source) => mem::replace(&mut registers[source.0 as usize], other),
        None => other,
    }
}

/// A result goes to its register, if it has one.
pub(crate) fn received(registers: Vec<Value>, to: Option<Register>, value: Value) -> Vec<Value>
    requires { HasAny (length registers.items) (place_of to) }
    ensures received { registers_seen result.items ≡ received (place_of to) (value_seen value) (registers_seen registers.items) }
    ensures count { length result.items ≡ length registers.items }
{
    let mut registers = registers;
    if let Some(to) = to {
        put(&mut registers, to, value);
    }
    registers
}
