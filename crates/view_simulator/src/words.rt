// What is known of inputs is of words of 64 bits.
ghost use Rattle.std.specs.Prelude.{All};
ghost use Rattle.view_simulator.specs.Making.{HasKnownWords, IsOfWords};

use input_share::see_value;
use value_file::{PublicEntry, PublicValue};

fn see_known(value: &PublicValue)
    ensures { HasKnownWords value.now }
{
    match value {
        PublicValue::Known(value) => see_value(value),
        PublicValue::Hidden { .. } => {}
    }
}

/// For proofs: from here on each word that is known of the inputs is known to be below 2^64. Nothing is changed or answered.
pub fn see_part(entries: &[PublicEntry])
    ensures { All IsOfWords entries.now }
{
    for entry in entries {
        see_known(&entry.value);
    }
}
