// The gates that test words for zero.
ghost use Rattle.std.specs.Prelude.{◌≡◌, ◌+◌, ◌≤◌, ◌^◌, IfOk};
ghost use Rattle.plans.specs.Equality.{eq_plan};
ghost use Rattle.plans.specs.EqualityLaw.{TestsForZero, TakesWords};
ghost use Rattle.plans.specs.Packed.{packed_eq_plan, PacksZeroTests};

use gates::Gate;
use std::alloc::{AllocError, Global};

/// How far the bits of a word are shifted to be joined, until bit 0 stands for all of them.
const SHIFTS: [u64; 6] = [32, 16, 8, 4, 2, 1];

/// The gates of the plan.
fn gates_of(alloc: Global, first: u64, difference: u64) -> Result<Vec<Gate>, AllocError>
    requires { first + 17 ≤ 2 ^ 64 }
    ensures { IfOk result (λ gates. gates.items ≡ eq_plan first difference) }
{
    let differing = first + 2;
    let mut same = differing + 1;
    let mut gates = Vec::new(alloc);
    gates.push(Gate::Split {
        operand: difference,
        negated: true,
    })?;
    gates.push(Gate::Xor {
        left: first,
        right: first + 1,
    })?;
    gates.push(Gate::Not { operand: differing })?;
    for count in SHIFTS {
        let shifted = same + 1;
        gates.push(Gate::Shr {
            operand: same,
            count,
        })?;
        gates.push(Gate::And {
            left: same,
            right: shifted,
        })?;
        same = shifted + 1;
    }
    gates.push(Gate::Low { operand: same })?;
    Ok(gates)
}

/// The gates that test each of `n` shared words for zero. `difference` is the number of the value with the words, such as the
/// difference of two values that are to be compared; the gates make the values from number `first` on.
///
/// The last value has 1 exactly where the word is 0, else 0: the word is split into two that differ by it, and these two are
/// compared bit by bit. Memory is the only error.
#[tactic(auto, using(crate::proofs::EqualityLaws::tests_for_zero_from, crate::proofs::EqualityLaws::takes_words_from))]
pub fn plan(alloc: Global, first: u64, difference: u64, n: u64) -> Result<Vec<Gate>, AllocError>
    requires numbers { first + 17 ≤ 2 ^ 64 }
    requires elements { n ≤ 1048576 }
    ensures gates { IfOk result (λ gates. gates.items ≡ eq_plan first difference) }
    ensures zero_test { IfOk result (λ gates. TestsForZero first difference gates.items) }
    ensures words { IfOk result (λ gates. TakesWords first difference n gates.items) }
{
    gates_of(alloc, first, difference)
}

/// The same gates, and one more that packs what they make: the last value, of number `first + 17`, has a bit for each word, which is 1
/// exactly where the word is 0. They draw the same words. Memory is the only error.
#[tactic(auto, using(crate::proofs::PackedLaws::packs_zero_tests_from, crate::proofs::PackedLaws::zero_tests_take_from))]
pub fn packed_plan(
    alloc: Global,
    first: u64,
    difference: u64,
    n: u64,
) -> Result<Vec<Gate>, AllocError>
    requires numbers { first + 18 ≤ 2 ^ 64 }
    requires elements { n ≤ 1048576 }
    ensures gates { IfOk result (λ gates. gates.items ≡ packed_eq_plan first difference) }
    ensures zero_test { IfOk result (λ gates. PacksZeroTests first difference gates.items) }
    ensures words { IfOk result (λ gates. TakesWords first difference n gates.items) }
{
    let mut gates = gates_of(alloc, first, difference)?;
    gates.push(Gate::Pack {
        operand: first + 16,
    })?;
    Ok(gates)
}
