// The inputs of which three views show the shares, and the dealer's words.
ghost use Rattle.std.specs.Prelude.{◌≡◌, ◌++◌, IfOk, OnOk};
ghost use Rattle.found_inputs.specs.Found.{found_entries, found_words};
ghost use Rattle.found_inputs.specs.Sums.{masks_of};

use crate::lines::{lines_for, words_at};
use crate::values::entry_of;
use std::alloc::{AllocError, Global};
use value_file::{Inputs, PublicEntry, PublicValue};
use view_text::InputShare;

/// The inputs with this public part of which the `in` lines of three views show the shares: a public input stays, a hidden one takes the next
/// line of each view. Fails where memory runs out.
pub fn found_inputs(
    alloc: Global,
    part: &[PublicEntry],
    one: &[InputShare],
    two: &[InputShare],
    three: &[InputShare],
) -> Result<Inputs, AllocError>
    ensures { IfOk result (λ inputs. inputs ≡ found_entries part.now one.now two.now three.now) }
{
    let mut found = Vec::with_capacity(alloc, part.len())?;
    let mut taken = 0;
    for entry in part {
        let (first, second) = (words_at(one, taken), words_at(two, taken));
        found.push(entry_of(alloc, entry, first, second, words_at(three, taken))?)?;
        taken += lines_for(&entry.value);
    }
    Ok(Inputs::new(found))
}

/// The dealer's words of an input after those before: where it is hidden, the first miner's share, and then the second one's.
fn push_masks(
    value: &PublicValue,
    one: &[u64],
    two: &[u64],
    words: &mut Vec<u64>,
) -> Result<(), AllocError>
    ensures { OnOk result (words.new.items ≡ words.old.items ++ masks_of value.now one.now two.now) }
{
    match value {
        PublicValue::Known(_) => Ok(()),
        PublicValue::Hidden { .. } => {
            words.extend_from_slice(one)?;
            words.extend_from_slice(two)?;
            Ok(())
        }
    }
}

/// The dealer's words with which the shares in these `in` lines were dealt. Fails where memory runs out.
pub fn found_words(
    alloc: Global,
    part: &[PublicEntry],
    one: &[InputShare],
    two: &[InputShare],
) -> Result<Vec<u64>, AllocError>
    ensures { IfOk result (λ words. words.items ≡ found_words part.now one.now two.now) }
{
    let mut words = Vec::new(alloc);
    let mut taken = 0;
    for entry in part {
        push_masks(
            &entry.value,
            words_at(one, taken),
            words_at(two, taken),
            &mut words,
        )?;
        taken += lines_for(&entry.value);
    }
    Ok(words)
}
