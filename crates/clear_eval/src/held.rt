// Operands that are only read.
ghost use Rattle.std.specs.Prelude.{◌≡◌, IfOk};
ghost use Rattle.value_steps.specs.Views.{value_seen};
ghost use Rattle.clear_eval.specs.inner.Views.{held_seen};

use std::alloc::{AllocError, Global};
use value_steps::Value;

/// A value that an operation only reads: one in a slot, or one of its own.
pub enum Held<'a> {
    Lent(&'a Value),
    Own(Value),
}

// Written out, so that an early exit calls this once, and doesn't take the operand apart in its place.
impl Drop for Held<'_> {
    fn drop(self) {
        match self {
            Held::Lent(_) | Held::Own(_) => {}
        }
    }
}

impl Held<'_> {
    /// The value.
    pub fn get(&self) -> &Value
        ensures { value_seen result.now ≡ held_seen self.now }
    {
        match self {
            Held::Lent(value) => value,
            Held::Own(value) => value,
        }
    }

    /// The value as one of its own: one in a slot is copied.
    pub fn into_value(self, alloc: Global) -> Result<Value, AllocError>
        ensures { IfOk result (λ v. value_seen v ≡ held_seen self.entry) }
    {
        match self {
            Held::Lent(value) => value.copy(alloc),
            Held::Own(value) => Ok(value),
        }
    }
}
