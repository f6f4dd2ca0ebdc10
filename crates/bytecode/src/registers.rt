// How many registers the functions of code have.
ghost use Rattle.std.specs.Prelude.{◌≡◌, ◌<◌, length, option_map, slice_get, Some};
ghost use Rattle.bytecode.specs.InMemory.{raw_code};

use crate::code::Code;

impl Code {
    /// How many registers a function has, its parameters among them. The function of this number has to be there.
    pub fn registers(&self, function: u16) -> u16
        requires { function < length (raw_code self.now).functions }
        ensures { option_map (λ f. length f.registers) (slice_get (raw_code self.now).functions function) ≡ Some result }
    {
        self.functions[function as usize].registers.len() as u16
    }
}
