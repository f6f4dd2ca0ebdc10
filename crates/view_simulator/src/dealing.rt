// Whether the dealer's tape suffices.
ghost use Rattle.std.specs.Prelude.{◌≡◌, ◌+◌, ◌<◌, nat_le, IfSome, IfNone};
ghost use Rattle.view_model.specs.Dealing.{hidden_draws};
ghost use Rattle.program_views.specs.Views.{hidden_need};

use input_share::shared_size;
use value_file::{PublicEntry, PublicValue};

/// How many of so many words are left after those that the dealer draws for an input: two for each word in which a hidden one is shared.
fn left_behind(value: &PublicValue, words: u64) -> Option<u64>
    ensures some { IfSome result (λ left. words ≡ hidden_draws value.now + left) }
    ensures none { IfNone result (words < hidden_draws value.now) }
{
    match value {
        PublicValue::Known(_) => Some(words),
        PublicValue::Hidden { data_type, shape } => {
            let count = shared_size(*data_type, shape.count());
            words.checked_sub(count)?.checked_sub(count)
        }
    }
}

/// Whether so many words of the dealer suffice for the inputs.
pub fn suffices(part: &[PublicEntry], words: usize) -> bool
    ensures { result ≡ nat_le (hidden_need part.now) words }
{
    let mut left = words as u64;
    for entry in part {
        let Some(behind) = left_behind(&entry.value, left) else {
            return false;
        };
        left = behind;
    }
    true
}
