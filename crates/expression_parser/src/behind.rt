ghost use Rattle.expression_parser.specs.Given.{Both, Boxed, Closed};

use crate::{Read, Stopped};
use std::alloc::Global;

// What was read is moved in here while what stands after it may still be refused, so that one drop serves each type.

/// What was read first, and what was read after it.
pub fn both<'a, A: Drop, B>(first: A, second: Read<'a, B>) -> Read<'a, (A, B)>
    ensures { Both first second.entry result }
{
    let (second, rest) = second?;
    Ok(((first, second), rest))
}

/// What was read, where what closes it stands after it.
pub fn closed<'a, A: Drop, B: Drop>(found: A, close: Read<'a, B>) -> Read<'a, A>
    ensures { Closed found close.entry result }
{
    let (_, rest) = close?;
    Ok((found, rest))
}

/// What was read, in a box.
pub fn boxed<'a, A: Drop>(alloc: Global, found: Read<'a, A>) -> Read<'a, Box<A>>
    ensures { Boxed found.entry result }
{
    let (found, rest) = found?;
    Ok((Box::new(alloc, found)?, rest))
}
