// The words that a map makes.
ghost use Rattle.std.specs.Prelude.{◌≡◌, [], ◌++◌, OnOk};
ghost use Rattle.proto_core.specs.declared.party.Number.{Number as NumberValue};
ghost use Rattle.proto_core.specs.Parties.{of_three};
ghost use Rattle.joint_run.specs.Three.{each_of};

use joint_run::Tapes;
use std::alloc::{AllocError, Global};
use std::marker::Model;

/// Tapes of the three miners that grow at their ends.
#[derive(Drop)]
pub struct MadeTapes {
    pub first: Vec<u64>,
    pub second: Vec<u64>,
    pub third: Vec<u64>,
}

impl Model for MadeTapes {
    ghost use Rattle.joint_run.specs.Parts.{ThreeLists};

    ghost Value = { ThreeLists };

    ghost view = { λ t. record { first = t.first.items; second = t.second.items; third = t.third.items } };
}

impl MadeTapes {
    /// No words.
    pub(crate) fn new(alloc: Global) -> Self
        ensures { (i : NumberValue) → each_of result i ≡ [] }
    {
        MadeTapes {
            first: Vec::new(alloc),
            second: Vec::new(alloc),
            third: Vec::new(alloc),
        }
    }

    /// Words after each miner's.
    pub(crate) fn extend(
        &mut self,
        first: &[u64],
        second: &[u64],
        third: &[u64],
    ) -> Result<(), AllocError>
        ensures { OnOk result ((i : NumberValue) → each_of self.new i ≡ each_of self.old i ++ of_three first.now second.now third.now i) }
    {
        self.first.extend_from_slice(first)?;
        self.second.extend_from_slice(second)?;
        self.third.extend_from_slice(third)?;
        Ok(())
    }

    /// The words, to be drawn.
    pub(crate) fn as_tapes(&self) -> Tapes
        ensures { (i : NumberValue) → each_of result i ≡ each_of self.now i }
    {
        Tapes {
            first: &self.first,
            second: &self.second,
            third: &self.third,
        }
    }
}
