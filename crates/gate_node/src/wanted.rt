// Which values are wanted once all gates are through.
ghost use Rattle.std.specs.Prelude.{◌≡◌, ◌≢◌, ◌+◌, ◌^◌, ◌<◌, true, false, SomeIff};
ghost use Rattle.gates.specs.Counts.{made_by_all};
ghost use Rattle.gate_node.specs.Plans.{any_takes};

use gates::Gate;
use std::collections::BTreeSet;

/// Which values are wanted once all gates that are left are through.
#[derive(Drop)]
pub(crate) enum Wanted {
    /// All.
    All,
    /// The gates are a plan: the values of these numbers alone. The later gates are run after it.
    These {
        numbers: BTreeSet<u64>,
        later: Vec<Gate>,
    },
}

impl Wanted {
    /// Whether all are wanted.
    pub fn is_all(&self) -> bool
        ensures all { result ≡ true → self.now ≡ Wanted.All }
        ensures not_all { result ≡ false → self.now ≢ Wanted.All }
    {
        match self {
            Wanted::All => true,
            Wanted::These { .. } => false,
        }
    }
}

/// Whether one of these gates takes the value of a number.
pub(crate) fn is_taken(gates: &[Gate], number: u64) -> bool
    ensures { result ≡ any_takes number gates.now }
{
    for gate in gates {
        if gate.operands().has(number) {
            return true;
        }
    }
    false
}

/// How many values there are with those of these gates, where so many were there; none where a `u64` doesn't hold the number.
pub(crate) fn count_with(gates: &[Gate], count: u64) -> Option<u64>
    ensures { SomeIff result (count + made_by_all gates.now < 2 ^ 64) (count + made_by_all gates.now) }
{
    let mut all = count;
    for gate in gates {
        all = all.checked_add(gate.made_by())?;
    }
    Some(all)
}
