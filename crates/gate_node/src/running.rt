// A gate at work.
ghost use Rattle.std.specs.Prelude.{◌≡◌, IfOk};
ghost use Rattle.blocked_protocol.specs.Blocked.{joined};
ghost use Rattle.gate_node.specs.Shares.{shares_of};

use crate::made::Made;
use gate_exchanges::Exchanged;
use std::alloc::AllocError;

/// A gate at work: how many of its elements have begun, and the shares that its blocks have made.
#[derive(Drop)]
pub(crate) struct Running {
    pub gate: Exchanged,
    pub begun: usize,
    pub made: Made,
}

impl Running {
    /// A block is through, and has made these shares.
    pub fn through(self, first: &Vec<u64>, second: &Option<Vec<u64>>) -> Result<Self, AllocError>
        ensures { IfOk result (λ r. r ≡ record { gate = self.gate; begun = self.begun; made = joined self.made (shares_of first.now second.now) }) }
    {
        let Running { gate, begun, made } = self;
        let mut made = made;
        made.append(first, second)?;
        Ok(Running { gate, begun, made })
    }
}
