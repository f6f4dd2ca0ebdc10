// The sums of three shares' words.
ghost use Rattle.std.specs.Prelude.{◌≡◌, IfOk};
ghost use Rattle.std.specs.Str.{bytes_eq};
ghost use Rattle.bit_words.specs.Gathered.{packed, unpacked};
ghost use Rattle.input_share.specs.AddUp.{sums_of};
ghost use Rattle.input_share.specs.Values.{ring_of};
ghost use Rattle.found_inputs.specs.Sums.{are_of_type, are_right, wrong_sums_at};

use crate::lines::{lines_for, words_at};
use bit_words::unpacked;
use input_share::shared_as;
use proto_core::{AddRing, ShareRing, XorRing};
use std::alloc::{AllocError, Global};
use value_file::{DataType, PublicEntry, PublicValue};
use view_text::InputShare;

/// The sums of three lists of words, element by element, as far as the shortest list goes.
fn sums_in<R: ShareRing>(
    alloc: Global,
    one: &[u64],
    two: &[u64],
    three: &[u64],
) -> Result<Vec<u64>, AllocError>
    ensures { IfOk result (λ sums. sums.items ≡ sums_of R.ring one.now two.now three.now) }
{
    let count = one.len().min(two.len()).min(three.len());
    let mut sums = Vec::new(alloc);
    for k in 0..count {
        sums.push(R::add(R::add(one[k], two[k]), three[k]))?;
    }
    Ok(sums)
}

/// The sums of three shares' words, in the ring of their data type.
pub(crate) fn sums(
    alloc: Global,
    data_type: DataType,
    one: &[u64],
    two: &[u64],
    three: &[u64],
) -> Result<Vec<u64>, AllocError>
    ensures { IfOk result (λ sums. sums.items ≡ sums_of (ring_of data_type) one.now two.now three.now) }
{
    match data_type {
        DataType::Uint64 | DataType::Int64 => sums_in::<AddRing>(alloc, one, two, three),
        DataType::Bool => sums_in::<XorRing>(alloc, one, two, three),
    }
}

/// Whether words are those of so many truth values: no other bit is set.
fn are_truths(alloc: Global, count: u64, words: &[u64]) -> Result<bool, AllocError>
    ensures { IfOk result (λ are. are ≡ bytes_eq (packed (unpacked words.now count)) words.now) }
{
    let truths = unpacked(alloc, words, count as usize)?;
    let again = shared_as(alloc, DataType::Bool, truths)?;
    Ok(again.as_slice() == words)
}

/// Whether words are those of so many elements of a data type.
fn are_of_type(
    alloc: Global,
    data_type: DataType,
    count: u64,
    words: &[u64],
) -> Result<bool, AllocError>
    ensures { IfOk result (λ are. are ≡ are_of_type data_type count words.now) }
{
    match data_type {
        DataType::Uint64 | DataType::Int64 => Ok(true),
        DataType::Bool => are_truths(alloc, count, words),
    }
}

/// Whether three shares of an input, if it is hidden, add up to words of its type.
fn are_right(
    alloc: Global,
    value: &PublicValue,
    one: &[u64],
    two: &[u64],
    three: &[u64],
) -> Result<bool, AllocError>
    ensures { IfOk result (λ right. right ≡ are_right value.now one.now two.now three.now) }
{
    match value {
        PublicValue::Known(_) => Ok(true),
        PublicValue::Hidden { data_type, shape } => {
            let sums = sums(alloc, *data_type, one, two, three)?;
            are_of_type(alloc, *data_type, shape.count(), &sums)
        }
    }
}

/// The place, among the `in` lines of three views, of the first hidden input whose shares add up to no words of its type: of the words of truth
/// values no bit is set but those that stand for them. Fails where memory runs out.
pub fn wrong_sums_at(
    alloc: Global,
    part: &[PublicEntry],
    one: &[InputShare],
    two: &[InputShare],
    three: &[InputShare],
) -> Result<Option<u64>, AllocError>
    ensures { IfOk result (λ place. place ≡ wrong_sums_at part.now one.now two.now three.now) }
{
    let mut taken = 0;
    for entry in part {
        let (first, second) = (words_at(one, taken), words_at(two, taken));
        if !are_right(alloc, &entry.value, first, second, words_at(three, taken))? {
            return Ok(Some(taken as u64));
        }
        taken += lines_for(&entry.value);
    }
    Ok(None)
}
