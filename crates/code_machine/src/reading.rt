// What can be read of a machine.
ghost use Rattle.std.specs.Prelude.{◌≡◌, IfOk};
ghost use Rattle.language_model.specs.Values.{size};
ghost use Rattle.value_steps.specs.Views.{value_seen};
ghost use Rattle.code_machine.specs.Views.{registers_seen};

use crate::machine::Machine;
use bytecode::Register;
use program_trees::{DataType, Shape};
use std::alloc::{AllocError, Global};
use value_steps::Value;

impl Machine {
    /// The shape of the value in a register; where there is no such register, that of the value that nobody reads.
    #[tactic(auto, unfolding(crate::specs::Views::registers_seen))]
    pub fn shape_in(&self, register: Register) -> Shape
        ensures { result ≡ (registers_seen self.now.registers.items register.0).shape }
    {
        match self.registers.get(register.0 as usize) {
            Some(value) => value.shape,
            None => Shape::scalar(DataType::Uint64),
        }
    }

    /// How many elements the value in a register has; where there is no such register, as many as the value that nobody reads.
    #[tactic(auto, unfolding(crate::specs::Views::registers_seen))]
    pub fn size_in(&self, register: Register) -> u64
        ensures { result ≡ size (registers_seen self.now.registers.items register.0) }
    {
        match self.registers.get(register.0 as usize) {
            Some(value) => value.size(),
            None => 1,
        }
    }

    /// The value in a register, in memory of its own; where there is no such register, the value that nobody reads.
    #[tactic(auto, unfolding(crate::specs::Views::registers_seen))]
    pub fn value_in(&self, alloc: Global, register: Register) -> Result<Value, AllocError>
        ensures { IfOk result (λ v. value_seen v ≡ registers_seen self.now.registers.items register.0) }
    {
        match self.registers.get(register.0 as usize) {
            Some(value) => value.copy(alloc),
            None => Value::unread(alloc),
        }
    }
}
