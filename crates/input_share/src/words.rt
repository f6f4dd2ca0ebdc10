// What is known of words that are at hand. No call here changes or answers anything: each is for the proof of its caller.
ghost use Rattle.std.specs.Prelude.{◌<◌, ◌^◌, length, All};
ghost use Rattle.proto_core.specs.Lists.{AreWords};
ghost use Rattle.input_share.specs.Values.{elements_of};
ghost use Rattle.input_share.specs.AddUp.{HasWords};
ghost use Rattle.input_share.specs.OfWords.{IsPartOfWords};

use crate::entry::{Part, ShareEntry};
use value_file::{Entry, Value};

/// For proofs: from here on each of these words is known to be below 2^64, and so is how many they are. Nothing is changed or answered.
pub fn see_words(words: &[u64])
    ensures words { AreWords words.now }
    ensures few { length words.now < 2 ^ 64 }
{
    let _count = words.len();
}

fn see_numbers(numbers: &[u64])
    ensures { All (λ n. n < 2 ^ 64) numbers.now }
{
    let _count = numbers.len();
}

/// For proofs: from here on each word of the value is known to be below 2^64. Nothing is changed or answered.
#[tactic(auto, using(crate::proofs::Bits::bits_small, crate::proofs::Bits::one_small))]
pub fn see_value(value: &Value)
    ensures { All (λ n. n < 2 ^ 64) (elements_of value.now) }
{
    match value {
        Value::Number(word) | Value::Integer(word) => {
            let _word = *word;
        }
        Value::Numbers(words) | Value::Integers(words) => see_numbers(words.as_slice()),
        Value::Truth(_) => {}
        Value::Truths(_) => {}
    }
}

/// For proofs: from here on each word of the inputs is known to be below 2^64. Nothing is changed or answered.
pub fn see_entries(entries: &[Entry])
    ensures { All HasWords entries.now }
{
    for entry in entries {
        see_value(&entry.value);
    }
}

fn see_part(part: &Part)
    ensures { IsPartOfWords part.now }
{
    match part {
        Part::Public(value) => see_value(value),
        Part::Private(shared) => see_numbers(shared.words.as_slice()),
    }
}

/// For proofs: from here on each word of a miner's entries is known to be below 2^64. Nothing is changed or answered.
pub(crate) fn see_shares(entries: &[ShareEntry])
    ensures { All (λ e. IsPartOfWords e.part) entries.now }
{
    for entry in entries {
        see_part(&entry.part);
    }
}
