// The `in` lines of three views.
ghost use Rattle.std.specs.Prelude.{◌≡◌, ◌≤◌, drop};
ghost use Rattle.found_inputs.specs.Found.{words_first};
ghost use Rattle.found_inputs.specs.Sums.{lines_for};

use value_file::PublicValue;
use view_text::InputShare;

/// How many `in` lines an input has: a hidden one has one.
pub(crate) fn lines_for(value: &PublicValue) -> usize
    ensures lines { result ≡ lines_for value.now }
    ensures few { result ≤ 1 }
{
    match value {
        PublicValue::Known(_) => 0,
        PublicValue::Hidden { .. } => 1,
    }
}

/// The words of the line of this place; none where there is no such line.
pub(crate) fn words_at(shares: &[InputShare], place: usize) -> &[u64]
    ensures { result.now ≡ words_first (drop place shares.now) }
{
    if place < shares.len() {
        shares[place].words()
    } else {
        &[]
    }
}
