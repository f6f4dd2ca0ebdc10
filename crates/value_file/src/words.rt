// What is known of words that are at hand. No call here changes or answers anything: each is for the proof of its caller.
ghost use Rattle.std.specs.Prelude.{◌<◌, ◌^◌, All};
ghost use Rattle.value_file.specs.Values.{HoldsWords};
ghost use Rattle.value_file.specs.Public.{ShowsWords};

use crate::public::{PublicEntry, PublicValue};
use crate::value::Value;

fn see_words(words: &[u64])
    ensures { All (λ x. x < 2 ^ 64) words.now }
{
    let _count = words.len();
}

fn see_value(value: &Value)
    ensures { HoldsWords value.now }
{
    match value {
        Value::Integer(word) => {
            let _word = *word;
        }
        Value::Integers(words) => see_words(words.as_slice()),
        Value::Number(_) | Value::Truth(_) | Value::Numbers(_) | Value::Truths(_) => {}
    }
}

fn see_public(value: &PublicValue)
    ensures { ShowsWords value.now }
{
    match value {
        PublicValue::Known(value) => see_value(value),
        PublicValue::Hidden { .. } => {}
    }
}

/// For proofs: from here on each word that is held of a number with a sign is known to be below 2^64. Nothing is changed or
/// answered.
pub(crate) fn see_entries(entries: &[PublicEntry])
    ensures { All (λ e. ShowsWords e.value) entries.now }
{
    for entry in entries {
        see_public(&entry.value);
    }
}
