// How many elements values have. Sizes are kept as words, and one that is no word is not kept.
ghost use Rattle.std.specs.Prelude.{◌≡◌, ◌+◌, ◌*◌, ℕ, List, ◌++◌, IfOk, OnOk};
ghost use Rattle.gates.specs.Bits.{words_for};
ghost use Rattle.gates.specs.Counts.{size_of};
ghost use Rattle.shared_gates.specs.Model.{size_made, sizes_made};
ghost use Rattle.view_simulator.specs.Sizes.{exchanged, IsKept, AreKept};

use gates::Gate;
use std::alloc::AllocError;

/// The size of what was dealt under a number, and 0 where nothing was.
fn dealt_size(dealt: &[u64], number: u64) -> u64
    ensures { result ≡ size_of dealt.now number }
{
    match dealt.get(number as usize) {
        Some(size) => *size,
        None => 0,
    }
}

/// The size of the value of a number, and 0 where there is no such value.
fn size_at(sizes: &[Option<u64>], number: u64) -> Option<u64>
    ensures { (all : List ℕ) → AreKept all sizes.now → IsKept (size_of all number) result }
{
    match sizes.get(number as usize) {
        Some(size) => *size,
        None => Some(0),
    }
}

/// How many elements two values have together.
fn size_of_both(sizes: &[Option<u64>], left: u64, right: u64) -> Option<u64>
    ensures { (all : List ℕ) → AreKept all sizes.now → IsKept (size_of all left + size_of all right) result }
{
    size_at(sizes, left)?.checked_add(size_at(sizes, right)?)
}

/// How many elements a value has, `count` times.
fn times(sizes: &[Option<u64>], number: u64, count: u64) -> Option<u64>
    ensures { (all : List ℕ) → AreKept all sizes.now → IsKept (size_of all number * count) result }
{
    if count == 0 {
        return Some(0);
    }
    size_at(sizes, number)?.checked_mul(count)
}

/// How many words hold the bits of two lists.
fn words_for_both(left_count: u64, right_count: u64) -> u64
    ensures { result ≡ words_for (left_count + right_count) }
{
    let bits = u128::from(left_count) + u128::from(right_count);
    ((bits + 63) / 64) as u64
}

/// How many words hold a bit for each element of a value. Where its size is not kept, this is want of memory: no memory holds such a value.
fn packed_size(sizes: &[Option<u64>], number: u64) -> Result<Option<u64>, AllocError>
    ensures { (all : List ℕ) → AreKept all sizes.now → IfOk result (λ size. IsKept (words_for (size_of all number)) size) }
{
    match size_at(sizes, number) {
        Some(size) => Ok(Some(words_for_both(size, 0))),
        None => Err(AllocError),
    }
}

/// How many elements a gate makes.
fn size_made(dealt: &[u64], sizes: &[Option<u64>], gate: &Gate) -> Result<Option<u64>, AllocError>
    ensures { (all : List ℕ) → AreKept all sizes.now → IfOk result (λ size. IsKept (size_made dealt.now all gate.now) size) }
{
    match gate {
        Gate::Input { number } => Ok(Some(dealt_size(dealt, *number))),
        Gate::Const { list } => Ok(Some(list.as_slice().len() as u64)),
        Gate::Cat { left, right } => Ok(size_of_both(sizes, *left, *right)),
        Gate::Part { count, .. }
        | Gate::Rep { count, .. }
        | Gate::Unpack { count, .. }
        | Gate::SumEach { count, .. } => Ok(Some(*count)),
        Gate::Stretch { operand, count } | Gate::Tile { operand, count } => {
            Ok(times(sizes, *operand, *count))
        }
        Gate::Sum { .. } | Gate::PartBit { .. } => Ok(Some(1)),
        Gate::Pack { operand } => packed_size(sizes, *operand),
        Gate::RepBit { count, .. } => Ok(Some(words_for_both(*count, 0))),
        Gate::CatBit {
            left_count,
            right_count,
            ..
        } => Ok(Some(words_for_both(*left_count, *right_count))),
        Gate::Add { left, .. }
        | Gate::Sub { left, .. }
        | Gate::Mul { left, .. }
        | Gate::Xor { left, .. }
        | Gate::And { left, .. } => Ok(size_at(sizes, *left)),
        Gate::MulPub { operand, .. }
        | Gate::Not { operand }
        | Gate::Shl { operand, .. }
        | Gate::Shr { operand, .. }
        | Gate::Low { operand }
        | Gate::Put { operand, .. }
        | Gate::PutBit { operand, .. }
        | Gate::Split { operand, .. }
        | Gate::Conv { operand }
        | Gate::Open { operand, .. }
        | Gate::Result { operand, .. } => Ok(size_at(sizes, *operand)),
    }
}

/// How many elements a gate's messages are about, none where it sends no message.
pub(crate) fn exchanged(sizes: &[Option<u64>], gate: &Gate) -> Option<u64>
    ensures { (all : List ℕ) → AreKept all sizes.now → IsKept (exchanged all gate.now) result }
{
    match gate {
        Gate::Mul { left, .. } | Gate::And { left, .. } => size_at(sizes, *left),
        Gate::Split { operand, .. }
        | Gate::Conv { operand }
        | Gate::Open { operand, .. }
        | Gate::Result { operand, .. } => size_at(sizes, *operand),
        _ => Some(0),
    }
}

/// The sizes of what a gate makes, after those of the values before it.
pub(crate) fn push_sizes(
    dealt: &[u64],
    gate: &Gate,
    sizes: &mut Vec<Option<u64>>,
) -> Result<(), AllocError>
    ensures { OnOk result ((all : List ℕ) → AreKept all sizes.old.items
        → AreKept (all ++ sizes_made dealt.now all gate.now) sizes.new.items) }
{
    let size = size_made(dealt, sizes, gate)?;
    sizes.push(size)?;
    if let Gate::Split { .. } = gate {
        sizes.push(size)?;
    }
    Ok(())
}
