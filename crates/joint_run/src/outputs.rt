// The miners' shares of what one gate makes.
ghost use Rattle.std.specs.Prelude.{◌≡◌, [], ◌++◌, OnOk};
ghost use Rattle.proto_core.specs.declared.party.Number.{Number as NumberValue};
ghost use Rattle.proto_core.specs.Parties.{of_three};
ghost use Rattle.joint_run.specs.Three.{share_of};

use gates::Words;
use std::alloc::{AllocError, Global};

/// The three miners' shares of one value.
#[derive(Drop)]
pub struct Shared {
    first: Vec<u64>,
    second: Vec<u64>,
    third: Vec<u64>,
}

impl Shared {
    /// No words.
    pub fn new(alloc: Global) -> Self
        ensures { (i : NumberValue) → share_of result i ≡ [] }
    {
        Shared {
            first: Vec::new(alloc),
            second: Vec::new(alloc),
            third: Vec::new(alloc),
        }
    }

    /// Words after each miner's share.
    pub(crate) fn extend(
        &mut self,
        first: &[u64],
        second: &[u64],
        third: &[u64],
    ) -> Result<(), AllocError>
        ensures { OnOk result ((i : NumberValue) → share_of self.new i ≡ share_of self.old i ++ of_three first.now second.now third.now i) }
    {
        self.first.extend_from_slice(first)?;
        self.second.extend_from_slice(second)?;
        self.third.extend_from_slice(third)?;
        Ok(())
    }

    /// Each miner's share by itself.
    pub(crate) fn into_words(self) -> (Words, Words, Words)
        ensures { (i : NumberValue) → of_three result.0 result.1 result.2 i ≡ share_of self i }
    {
        (
            Words::new(self.first),
            Words::new(self.second),
            Words::new(self.third),
        )
    }
}

/// The three miners' shares of what one gate makes: of its value, and of its second one where it makes two.
#[derive(Drop)]
pub struct Outputs {
    pub first: Shared,
    pub second: Shared,
}

impl Outputs {
    /// No words.
    pub fn new(alloc: Global) -> Self
        ensures first { (i : NumberValue) → share_of result.first i ≡ [] }
        ensures second { (i : NumberValue) → share_of result.second i ≡ [] }
    {
        Outputs {
            first: Shared::new(alloc),
            second: Shared::new(alloc),
        }
    }
}
