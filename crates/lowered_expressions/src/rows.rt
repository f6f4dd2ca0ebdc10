// The registers of values on their way. They stand in rows of twelve, one for each kind, which each statement uses again.
ghost use Rattle.std.specs.Prelude.{◌≡◌, ◌+◌, ◌<◌, IfOk, length, map, max};
ghost use Rattle.program_trees.specs.Shapes.{shape_of};
ghost use Rattle.program_trees.specs.TypedTree.{typed_tree, typed_trees_of};
ghost use Rattle.code_model.specs.Expressions.{next_row};
ghost use Rattle.code_model.specs.Kinds.{depth, depths, in_row, kind_number, shape_number};
ghost use Rattle.reached_instances.specs.Views.{setting};

use bytecode::Kind;
use program_trees::{DataType, Shape, TypedExpression};
use reached_instances::Setting;
use std::alloc::AllocError;

// A sum that memory has room for.
fn sum(a: usize, b: usize) -> Result<usize, AllocError>
    ensures { IfOk result (λ n. n ≡ a + b) }
{
    match a.checked_add(b) {
        None => Err(AllocError),
        Some(sum) => Ok(sum),
    }
}

/// The greater of two numbers.
pub fn greater(a: usize, b: usize) -> usize
    ensures { result ≡ max a b }
{
    a.max(b)
}

// The place of a shape in half a row.
fn shape_number(element: DataType, array: bool) -> usize
    ensures number { result ≡ shape_number (shape_of element array) }
    ensures few { result < 6 }
{
    let first = match element {
        DataType::Uint64 => 0,
        DataType::Int64 => 2,
        DataType::Bool => 4,
    };
    if array { first + 1 } else { first }
}

// The place of a kind in a row.
fn kind_number(kind: Kind) -> usize
    ensures { result ≡ kind_number kind }
{
    let secrecy = if kind.secret { 6 } else { 0 };
    secrecy + shape_number(kind.element, kind.array)
}

/// The register of a shape that nothing writes. These stand after the slots, if there are any.
pub fn default_register(here: &Setting<'_>, shape: Shape) -> usize
    ensures { result ≡ length (setting here.now).slots + shape_number shape }
{
    here.slots.len() + shape_number(shape.element, shape.array)
}

/// The register for a kind in the row that begins at a register. An error comes where no memory could hold so many.
pub fn in_row(row: usize, kind: Kind) -> Result<usize, AllocError>
    ensures { IfOk result (λ register. register ≡ in_row row kind) }
{
    sum(row, kind_number(kind))
}

/// Where the row after one begins. An error comes where no memory could hold so many registers.
pub fn next_row(row: usize) -> Result<usize, AllocError>
    ensures { IfOk result (λ next. next ≡ next_row row) }
{
    sum(row, 12)
}

/// How many rows the code of an expression has. An error comes where no memory could hold so many. The time grows with the size of the
/// expression.
#[cycle(depths)]
pub fn depth(e: &TypedExpression) -> Result<usize, AllocError>
    ensures { IfOk result (λ rows. rows ≡ depth (typed_tree e.now)) }
{
    match e {
        TypedExpression::Word(_)
        | TypedExpression::Truth(_)
        | TypedExpression::Zero
        | TypedExpression::Variable(_) => Ok(1),
        TypedExpression::Call(_, _, list) => {
            let arguments = depths(list)?;
            Ok(greater(arguments, 1))
        }
        TypedExpression::Size(x)
        | TypedExpression::Sum(x)
        | TypedExpression::BitExtract(_, x)
        | TypedExpression::Not(x)
        | TypedExpression::Cast(_, x)
        | TypedExpression::Declassify(x) => depth(x),
        TypedExpression::Cat(_, a, b)
        | TypedExpression::Lookup(_, a, b)
        | TypedExpression::Element(_, a, b)
        | TypedExpression::Binary(_, _, _, a, b)
        | TypedExpression::CutShort(_, a, b) => depth_of_two(a, b),
    }
}

/// Likewise for two expressions, of which the second one has the rows from the next one on.
#[cycle(depths)]
pub fn depth_of_two(a: &TypedExpression, b: &TypedExpression) -> Result<usize, AllocError>
    ensures { IfOk result (λ rows. rows ≡ max (depth (typed_tree a.now)) (1 + depth (typed_tree b.now))) }
{
    let first = depth(a)?;
    let second = depth(b)?;
    Ok(greater(first, sum(1, second)?))
}

// Likewise for arguments, each of which has the rows from its own one on.
#[cycle(depths)]
fn depths(list: &Vec<TypedExpression>) -> Result<usize, AllocError>
    ensures { IfOk result (λ rows. rows ≡ depths (typed_trees_of (map typed_tree list.now.items))) }
{
    let mut rows = 0;
    let mut before = 0;
    for e in list {
        let own = depth(e)?;
        rows = greater(rows, sum(before, own)?);
        before = sum(before, 1)?;
    }
    Ok(rows)
}
