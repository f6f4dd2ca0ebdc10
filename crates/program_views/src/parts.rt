// Parts of a view.
ghost use Rattle.std.specs.Prelude.{◌≡◌, ◌++◌, ◌∷◌, [], map, IfOk, OnOk};
ghost use Rattle.program_views.specs.Views.{input_shares, received};

use crate::arrival::Arrival;
use input_share::ShareEntry;
use std::alloc::{AllocError, Global};
use view_text::{InputShare, Received};

// The share of an input, if it is private, by its name.
fn push_share(
    alloc: Global,
    shares: &mut Vec<InputShare>,
    entry: &ShareEntry,
) -> Result<(), AllocError>
    ensures { OnOk result (shares.new.items ≡ shares.old.items ++ input_shares (entry.now ∷ [])) }
{
    match entry.part.words() {
        Some(words) => {
            let name = entry.name.copy(alloc)?;
            let words = words.to_vec(alloc)?;
            shares.push(InputShare::new(name, words))?;
            Ok(())
        }
        None => Ok(()),
    }
}

/// A miner's shares of the private inputs, by name, in their order.
pub fn input_shares(alloc: Global, entries: &[ShareEntry]) -> Result<Vec<InputShare>, AllocError>
    ensures { IfOk result (λ shares. shares.items ≡ input_shares entries.now) }
{
    let mut shares = Vec::new(alloc);
    for entry in entries {
        push_share(alloc, &mut shares, entry)?;
    }
    Ok(shares)
}

/// Messages that came, as a view has them.
pub fn received(alloc: Global, arrivals: Vec<Arrival>) -> Result<Vec<Received>, AllocError>
    ensures { IfOk result (λ got. got.items ≡ map received arrivals.items) }
{
    arrivals
        .into_iter()
        .map(|arrival| Received::new(arrival.link(), arrival.into_message()))
        .collect(alloc)
}
