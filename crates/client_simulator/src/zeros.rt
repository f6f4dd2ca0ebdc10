// Values of given sizes, of which no word is known.
ghost use Rattle.std.specs.Prelude.{◌≡◌, length, IfOk};
ghost use Rattle.proto_core.specs.declared.party.Number.{Number as NumberValue};
ghost use Rattle.protocol_model.specs.Gates.{sizes_of};
ghost use Rattle.joint_run.specs.Three.{values_of};

use gates::{Values, Words};
use joint_run::SharedValues;
use std::alloc::{AllocError, Global};

/// So many zeros.
fn zero_words(alloc: Global, count: u64) -> Result<Words, AllocError>
    ensures { IfOk result (λ words. length words ≡ count) }
{
    let mut zeros = Vec::new(alloc);
    for _at in 0..count {
        zeros.push(0)?;
    }
    Ok(Words::new(zeros))
}

/// Values of these sizes.
fn zeros(alloc: Global, sizes: &[u64]) -> Result<Values, AllocError>
    ensures { IfOk result (λ values. sizes_of values ≡ sizes.now) }
{
    let mut values = Values::new(alloc);
    for size in sizes {
        values.push(zero_words(alloc, *size)?)?;
    }
    Ok(values)
}

/// The same at each of the three miners.
pub(crate) fn shared_zeros(alloc: Global, sizes: &[u64]) -> Result<SharedValues, AllocError>
    ensures { IfOk result (λ values. (i : NumberValue) → sizes_of (values_of values i) ≡ sizes.now) }
{
    let first = zeros(alloc, sizes)?;
    let second = zeros(alloc, sizes)?;
    let third = zeros(alloc, sizes)?;
    Ok(SharedValues {
        first,
        second,
        third,
    })
}
