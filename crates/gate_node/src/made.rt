// The shares that a gate makes, block after block.
ghost use Rattle.std.specs.Prelude.{◌≡◌, ◌++◌, OnOk};
ghost use Rattle.blocked_protocol.specs.Blocked.{joined, no_elements};
ghost use Rattle.gate_exchanges.specs.Exchanges.{protocol_of};
ghost use Rattle.gate_node.specs.Shares.{shares_of};

use gate_exchanges::Exchange;
use gates::{Values, Words};
use std::alloc::{AllocError, Global};
use std::marker::Model;

/// A miner's shares of the one value that a gate makes, or of both, as far as its blocks are through. Contracts see them as a
/// list.
#[derive(Drop)]
pub(crate) struct Made {
    first: Vec<u64>,
    second: Vec<u64>,
    two: bool,
}

impl Model for Made {
    ghost use Rattle.std.specs.Prelude.{ℕ, List};
    ghost use Rattle.gate_node.specs.Shares.{shares_if};

    ghost Value = { List (List ℕ) };

    ghost view = { λ m. shares_if m.two m.first.items m.second.items };
}

impl Made {
    /// No block is through.
    #[tactic(auto, using(crate::proofs::Shares::none_is))]
    pub fn new(alloc: Global, exchange: Exchange) -> Self
        ensures { result ≡ no_elements (protocol_of exchange) }
    {
        Made {
            first: Vec::new(alloc),
            second: Vec::new(alloc),
            two: exchange.makes_two(),
        }
    }

    /// The shares of a further block.
    #[tactic(auto, using(crate::proofs::Shares::share_steps))]
    pub fn append(&mut self, first: &Vec<u64>, second: &Option<Vec<u64>>) -> Result<(), AllocError>
        ensures { OnOk result (self.new ≡ joined self.old (shares_of first.now second.now)) }
    {
        self.first.extend_from_slice(first)?;
        match second {
            Some(second) => self.second.extend_from_slice(second)?,
            None => self.two = false,
        }
        Ok(())
    }

    /// All blocks are through: the shares become values.
    #[tactic(auto, using(crate::proofs::Shares::share_steps))]
    pub fn keep(self, exchange: Exchange, values: &mut Values) -> Result<(), AllocError>
        ensures { OnOk result (values.new ≡ values.old ++ joined self (no_elements (protocol_of exchange))) }
    {
        values.push(Words::new(self.first))?;
        if self.two && exchange.makes_two() {
            values.push(Words::new(self.second))?;
        }
        Ok(())
    }
}
