// What a miner is dealt of the inputs.
ghost use Rattle.std.specs.Prelude.{◌≡◌, ◌++◌, ◌∷◌, [], IfOk, OnOk};
ghost use Rattle.view_model.specs.Dealing.{private_shares};

use gates::{Values, Words};
use input_share::ShareEntry;
use std::alloc::{AllocError, Global};

// The share words of an input, if it is private, as one value more.
fn push_shares(alloc: Global, values: &mut Values, entry: &ShareEntry) -> Result<(), AllocError>
    ensures { OnOk result (values.new ≡ values.old ++ private_shares (entry.now ∷ [])) }
{
    match entry.part.words() {
        Some(words) => values.push(Words::new(Vec::from_slice(alloc, words)?)),
        None => Ok(()),
    }
}

/// A miner's shares of the private inputs, in their order.
pub fn own_shares(alloc: Global, entries: &[ShareEntry]) -> Result<Values, AllocError>
    ensures { IfOk result (λ values. values ≡ private_shares entries.now) }
{
    let mut values = Values::new(alloc);
    for entry in entries {
        push_shares(alloc, &mut values, entry)?;
    }
    Ok(values)
}
