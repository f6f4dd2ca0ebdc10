// Numbers, each in so many bytes, the lowest first.
ghost use Rattle.std.specs.Prelude.{◌≡◌, ◌++◌, OnOk};
ghost use Rattle.bytecode.specs.inner.Numbers.{numbers_in};
ghost use Rattle.bytecode.specs.Written.{bytes_of, little};

use std::alloc::AllocError;

/// In how many bytes a number is written, and the number.
#[derive(Clone, Copy)]
pub(crate) struct Number(pub(crate) usize, pub(crate) u64);

/// Writes a number after a text.
fn push_number(text: &mut Vec<u8>, number: Number) -> Result<(), AllocError>
    ensures { OnOk result (text.new.items ≡ text.old.items ++ little number.0 number.1) }
{
    let mut left = number.1;
    for place in 0..number.0 {
        text.push((left % 256) as u8)?;
        left /= 256;
    }
    Ok(())
}

/// Writes numbers after a text.
pub(crate) fn push_numbers(text: &mut Vec<u8>, numbers: &[Number]) -> Result<(), AllocError>
    ensures { OnOk result (text.new.items ≡ text.old.items ++ bytes_of (numbers_in numbers.now)) }
{
    for number in numbers {
        push_number(text, *number)?;
    }
    Ok(())
}
