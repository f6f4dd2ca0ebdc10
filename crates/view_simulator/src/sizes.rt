// How large the hidden inputs are.
ghost use Rattle.std.specs.Prelude.{◌≡◌, [], ◌++◌, IfOk, OnOk};
ghost use Rattle.view_model.specs.Dealing.{hidden_then, hidden_sizes};

use input_share::shared_size;
use std::alloc::{AllocError, Global};
use value_file::{PublicEntry, PublicValue};

// The count of the words in which it is shared, if the input is hidden, as one size more.
fn push_size(sizes: &mut Vec<u64>, value: &PublicValue) -> Result<(), AllocError>
    ensures { OnOk result (sizes.new.items ≡ sizes.old.items ++ hidden_then value.now []) }
{
    match value {
        PublicValue::Known(_) => Ok(()),
        PublicValue::Hidden { data_type, shape } => {
            sizes.push(shared_size(*data_type, shape.count()))?;
            Ok(())
        }
    }
}

/// In how many words each hidden input is shared.
pub fn hidden_sizes(alloc: Global, part: &[PublicEntry]) -> Result<Vec<u64>, AllocError>
    ensures { IfOk result (λ sizes. sizes.items ≡ hidden_sizes part.now) }
{
    let mut sizes = Vec::new(alloc);
    for entry in part {
        push_size(&mut sizes, &entry.value)?;
    }
    Ok(sizes)
}
