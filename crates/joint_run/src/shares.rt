// Shares of numbered values, at each of the three miners.
ghost use Rattle.std.specs.Prelude.{◌≡◌, [], ◌∷◌, ◌++◌, OnOk};
ghost use Rattle.proto_core.specs.declared.party.Number.{Number as NumberValue};
ghost use Rattle.proto_core.specs.Parties.{of_three};
ghost use Rattle.joint_run.specs.Three.{values_of};

use gates::{Values, Words};
use proto_core::Number;
use std::alloc::{AllocError, Global};

/// The three miners' shares of values, each at its number from 0 on.
pub struct SharedValues {
    pub first: Values,
    pub second: Values,
    pub third: Values,
}

// Written out, so that an early exit calls this once.
impl Drop for SharedValues {
    fn drop(self) {
        let SharedValues {
            first: _,
            second: _,
            third: _,
        } = self;
    }
}

impl SharedValues {
    /// No value.
    pub fn new(alloc: Global) -> Self
        ensures { (i : NumberValue) → values_of result i ≡ [] }
    {
        SharedValues {
            first: Values::new(alloc),
            second: Values::new(alloc),
            third: Values::new(alloc),
        }
    }

    /// A miner's shares.
    pub fn of(&self, miner: Number) -> &Values
        ensures { result.now ≡ values_of self.now miner }
    {
        match miner {
            Number::One => &self.first,
            Number::Two => &self.second,
            Number::Three => &self.third,
        }
    }

    /// One value more, by each miner's share of it.
    pub fn push(&mut self, first: Words, second: Words, third: Words) -> Result<(), AllocError>
        ensures { OnOk result ((i : NumberValue) → values_of self.new i ≡ values_of self.old i ++ of_three first second third i ∷ []) }
    {
        self.first.push(first)?;
        self.second.push(second)?;
        self.third.push(third)?;
        Ok(())
    }
}
