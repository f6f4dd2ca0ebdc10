// The `in` lines of a view.
ghost use Rattle.std.specs.Prelude.{◌≡◌, ◌≤◌, length, drop};
ghost use Rattle.audit_steps.specs.Shares.{is_first_share, wrong_share_at};

use input_share::shared_size;
use sc_text::Name;
use value_file::{DataType, PublicEntry, PublicValue, Shape};
use view_text::InputShare;

/// Whether the line of this place, if there is one, shows a share of the input of this name, type and shape.
fn is_share(
    shares: &[InputShare],
    place: usize,
    name: &Name,
    data_type: DataType,
    shape: Shape,
) -> bool
    requires { place ≤ length shares.now }
    ensures { result ≡ is_first_share name.now data_type shape (drop place shares.now) }
{
    if place == shares.len() {
        return false;
    }
    let share = &shares[place];
    let count = shared_size(data_type, shape.count());
    share.name().as_str() == name.as_str() && share.words().len() as u64 == count
}

/// The place of the first `in` line that isn't the next hidden input's, by its name and its number of words. Where the last ones are
/// missing, it is the place after the lines; where every line is as it must be, there is none.
pub fn wrong_share_at(part: &[PublicEntry], shares: &[InputShare]) -> Option<u64>
    ensures { result ≡ wrong_share_at part.now shares.now }
{
    let mut taken = 0;
    for place in 0..part.len() {
        let entry = &part[place];
        match &entry.value {
            PublicValue::Known(_) => {}
            PublicValue::Hidden { data_type, shape } => {
                if !is_share(shares, taken, &entry.name, *data_type, *shape) {
                    return Some(taken as u64);
                }
                taken += 1;
            }
        }
    }
    if taken == shares.len() {
        None
    } else {
        Some(taken as u64)
    }
}
