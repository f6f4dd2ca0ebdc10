// The kinds of registers.
ghost use Rattle.std.specs.Prelude.{◌≡◌, IfOk, map};
ghost use Rattle.std.specs.List.{slice_get};
ghost use Rattle.program_trees.specs.TypedTree.{typed_tree};
ghost use Rattle.program_trees.specs.TypedPrograms.{typed_function_tree};
ghost use Rattle.reached_instances.specs.Views.{setting};
ghost use Rattle.language_model.specs.Evaluation.{gives_private};
ghost use Rattle.code_model.specs.Kinds.{called_shape, kind_in, kind_of, returned_shape, shape_in};

use bytecode::Kind;
use program_trees::{DataType, Returned, Shape, TypedExpression, TypedFunction};
use reached_instances::{Setting, domain, slot_shape};
use std::alloc::{AllocError, Global};

// The shape of what a function gives back; where it gives nothing, that of a number.
fn returned_shape(given: Returned) -> Shape
    ensures { result ≡ returned_shape given }
{
    match given {
        Returned::Nothing => Shape::scalar(DataType::Uint64),
        Returned::Value(slot) => slot.shape,
    }
}

/// The shape of what a call gives.
pub fn called_shape(functions: &[TypedFunction], function: usize) -> Shape
    ensures { result ≡ called_shape (slice_get (map typed_function_tree functions.now) function) }
{
    match functions.get(function) {
        None => Shape::scalar(DataType::Uint64),
        Some(callee) => returned_shape(callee.given),
    }
}

// The shape of what an expression gives.
fn shape(here: &Setting<'_>, e: &TypedExpression) -> Shape
    ensures { result ≡ shape_in (setting here.now) (typed_tree e.now) }
{
    match e {
        TypedExpression::Word(_) | TypedExpression::Size(_) => Shape::scalar(DataType::Uint64),
        TypedExpression::Truth(_) | TypedExpression::CutShort(_, _, _) => Shape::scalar(
            DataType::Bool,
        ),
        TypedExpression::Zero => Shape::scalar(DataType::Int64),
        TypedExpression::Variable(slot) => slot_shape(here, *slot),
        TypedExpression::Call(_, function, _) => called_shape(here.functions, *function),
        TypedExpression::BitExtract(_, _) => Shape {
            element: DataType::Bool,
            array: true,
        },
        TypedExpression::Lookup(_, array, index) => Shape {
            element: shape(here, array).element,
            array: shape(here, index).array,
        },
        TypedExpression::Sum(array) | TypedExpression::Element(_, array, _) => {
            Shape::scalar(shape(here, array).element)
        }
        TypedExpression::Cast(cast, operand) => cast.shape(shape(here, operand).array),
        TypedExpression::Binary(_, operator, operands, _, _) => operator.result_shape(*operands),
        TypedExpression::Cat(_, operand, _)
        | TypedExpression::Not(operand)
        | TypedExpression::Declassify(operand) => shape(here, operand),
    }
}

/// The kind of private or public values of a shape.
pub fn kind_of(secret: bool, shape: Shape) -> Kind
    ensures { result ≡ kind_of secret shape }
{
    Kind {
        secret,
        element: shape.element,
        array: shape.array,
    }
}

/// Whether an expression gives a private value. An error comes where memory runs short.
pub fn gives_private(
    alloc: Global,
    here: &Setting<'_>,
    e: &TypedExpression,
) -> Result<bool, AllocError>
    ensures { IfOk result (λ p. p ≡ gives_private (setting here.now) (typed_tree e.now)) }
{
    let domain = domain(alloc, here, e)?;
    Ok(domain.is_private())
}

/// The kind of what an expression gives. An error comes where memory runs short.
pub fn kind(alloc: Global, here: &Setting<'_>, e: &TypedExpression) -> Result<Kind, AllocError>
    ensures { IfOk result (λ k. k ≡ kind_in (setting here.now) (typed_tree e.now)) }
{
    let secret = gives_private(alloc, here, e)?;
    Ok(kind_of(secret, shape(here, e)))
}
