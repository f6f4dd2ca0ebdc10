// The notes of expressions: one walk over a tree. The functions call one another, so they stand together.
ghost use Rattle.std.specs.Prelude.{◌≡◌, ◌++◌, IfOk, OnOk, map};
ghost use Rattle.program_trees.specs.TypedTree.{typed_tree, typed_trees_of};
ghost use Rattle.reached_instances.specs.declared.instance.BoundDomain.TheVariants.{Public};
ghost use Rattle.reached_instances.specs.Domains.{domains};
ghost use Rattle.reached_instances.specs.Views.{setting};
ghost use Rattle.lowered_expressions.specs.inner.Notes.{arguments_notes, given_in, given_of, notes_of, one_given, operands_notes};
ghost use Rattle.lowered_expressions.specs.inner.Operands.{two_given};

use crate::closing::One;
use crate::kinds::called_shape;
use crate::notes::{Given, Note, nothing_noted};
use program_trees::{DataType, Shape, TypedExpression};
use reached_instances::{
    BoundDomain, Setting, call_domain, joined_domain, slot_domain, slot_shape,
};
use std::alloc::{AllocError, Global};

fn given_of(domain: BoundDomain, shape: Shape) -> Given
    ensures { result ≡ given_of domain shape }
{
    Given { domain, shape }
}

// A public value of a shape.
fn public(shape: Shape) -> Given
    ensures { result ≡ given_of Public shape }
{
    given_of(BoundDomain::Public, shape)
}

// What an operation on one operand gives.
fn one_given(one: One, operand: Given) -> Given
    ensures { result ≡ one_given one operand }
{
    let Given { domain, shape } = operand;
    match one {
        One::Size => public(Shape::scalar(DataType::Uint64)),
        One::Sum => given_of(domain, Shape::scalar(shape.element)),
        One::Bits(_) => given_of(
            domain,
            Shape {
                element: DataType::Bool,
                array: true,
            },
        ),
        One::Not => operand,
        One::Cast(cast) => given_of(domain, cast.shape(shape.array)),
        One::Declassify => public(shape),
    }
}

// An operation on two operands, as far as it tells what it gives.
#[derive(Clone, Copy)]
enum Two {
    // An element of the left one.
    Element,
    // The left one and the right one after it.
    Cat,
    // The elements of the left one at the right one.
    Lookup,
    // A value of this shape.
    Of(Shape),
}

// What an operation on two operands gives.
fn two_given(two: Two, left: Given, right: Given) -> Given
    ensures { result ≡ two_given two left right }
{
    let joined = joined_domain(left.domain, right.domain);
    match two {
        Two::Element => given_of(left.domain, Shape::scalar(left.shape.element)),
        Two::Cat => given_of(joined, left.shape),
        Two::Lookup => given_of(
            joined,
            Shape {
                element: left.shape.element,
                array: right.shape.array,
            },
        ),
        Two::Of(shape) => given_of(joined, shape),
    }
}

// Notes an expression and what is in it; what it gives.
#[cycle(noting)]
fn note(
    alloc: Global,
    notes: &mut Vec<Note>,
    here: &Setting<'_>,
    e: &TypedExpression,
) -> Result<Given, AllocError>
    ensures notes { OnOk result (notes.new.items ≡ notes.old.items ++ notes_of (setting here.now) (typed_tree e.now)) }
    ensures given { IfOk result (λ given. given ≡ given_in (setting here.now) (typed_tree e.now)) }
{
    let place = notes.len();
    notes.push(nothing_noted())?;
    let given = note_operands(alloc, notes, here, e)?;
    let nodes = notes.len() - place;
    notes[place] = Note { given, nodes };
    Ok(given)
}

// Notes the operands of an expression; what the expression gives.
#[cycle(noting)]
fn note_operands(
    alloc: Global,
    notes: &mut Vec<Note>,
    here: &Setting<'_>,
    e: &TypedExpression,
) -> Result<Given, AllocError>
    ensures notes { OnOk result (notes.new.items ≡ notes.old.items ++ operands_notes (setting here.now) (typed_tree e.now)) }
    ensures given { IfOk result (λ given. given ≡ given_in (setting here.now) (typed_tree e.now)) }
{
    match e {
        TypedExpression::Word(_) => Ok(public(Shape::scalar(DataType::Uint64))),
        TypedExpression::Truth(_) => Ok(public(Shape::scalar(DataType::Bool))),
        TypedExpression::Zero => Ok(public(Shape::scalar(DataType::Int64))),
        TypedExpression::Variable(slot) => {
            Ok(given_of(slot_domain(here, *slot), slot_shape(here, *slot)))
        }
        TypedExpression::Call(_, function, list) => {
            let domains = note_arguments(alloc, notes, here, list)?;
            let domain = call_domain(alloc, here.functions, *function, &domains)?;
            Ok(given_of(domain, called_shape(here.functions, *function)))
        }
        TypedExpression::Size(x) => note_one(alloc, notes, here, One::Size, x),
        TypedExpression::Sum(x) => note_one(alloc, notes, here, One::Sum, x),
        TypedExpression::BitExtract(line, x) => note_one(alloc, notes, here, One::Bits(*line), x),
        TypedExpression::Not(x) => note_one(alloc, notes, here, One::Not, x),
        TypedExpression::Cast(cast, x) => note_one(alloc, notes, here, One::Cast(*cast), x),
        TypedExpression::Declassify(x) => note_one(alloc, notes, here, One::Declassify, x),
        TypedExpression::Element(_, a, i) => note_two(alloc, notes, here, Two::Element, a, i),
        TypedExpression::Cat(_, a, b) => note_two(alloc, notes, here, Two::Cat, a, b),
        TypedExpression::Lookup(_, a, i) => note_two(alloc, notes, here, Two::Lookup, a, i),
        TypedExpression::Binary(_, operator, operands, a, b) => {
            let two = Two::Of(operator.result_shape(*operands));
            note_two(alloc, notes, here, two, a, b)
        }
        TypedExpression::CutShort(_, a, b) => {
            let two = Two::Of(Shape::scalar(DataType::Bool));
            note_two(alloc, notes, here, two, a, b)
        }
    }
}

// Notes the operand of an operation; what the operation gives.
#[cycle(noting)]
fn note_one(
    alloc: Global,
    notes: &mut Vec<Note>,
    here: &Setting<'_>,
    one: One,
    x: &TypedExpression,
) -> Result<Given, AllocError>
    ensures notes { OnOk result (notes.new.items ≡ notes.old.items ++ notes_of (setting here.now) (typed_tree x.now)) }
    ensures given { IfOk result (λ given. given ≡ one_given one (given_in (setting here.now) (typed_tree x.now))) }
{
    let operand = note(alloc, notes, here, x)?;
    Ok(one_given(one, operand))
}

// Notes the two operands of an operation; what the operation gives.
#[cycle(noting)]
fn note_two(
    alloc: Global,
    notes: &mut Vec<Note>,
    here: &Setting<'_>,
    two: Two,
    a: &TypedExpression,
    b: &TypedExpression,
) -> Result<Given, AllocError>
    ensures notes { OnOk result (notes.new.items ≡ notes.old.items ++
        (notes_of (setting here.now) (typed_tree a.now) ++ notes_of (setting here.now) (typed_tree b.now))) }
    ensures given { IfOk result (λ given. given ≡
        two_given two (given_in (setting here.now) (typed_tree a.now)) (given_in (setting here.now) (typed_tree b.now))) }
{
    let left = note(alloc, notes, here, a)?;
    let right = note(alloc, notes, here, b)?;
    Ok(two_given(two, left, right))
}

// Notes the arguments of a call; who may see what they give.
#[cycle(noting)]
fn note_arguments(
    alloc: Global,
    notes: &mut Vec<Note>,
    here: &Setting<'_>,
    list: &Vec<TypedExpression>,
) -> Result<Vec<BoundDomain>, AllocError>
    ensures notes { OnOk result (notes.new.items ≡ notes.old.items ++
        arguments_notes (setting here.now) (typed_trees_of (map typed_tree list.now.items))) }
    ensures domains { IfOk result (λ found. found.items ≡
        domains (setting here.now) (typed_trees_of (map typed_tree list.now.items))) }
{
    let mut domains = Vec::new(alloc);
    for each in list {
        let given = note(alloc, notes, here, each)?;
        domains.push(given.domain)?;
    }
    Ok(domains)
}

/// The notes of an expression. An error comes where memory runs short.
pub fn notes_of(
    alloc: Global,
    here: &Setting<'_>,
    e: &TypedExpression,
) -> Result<Vec<Note>, AllocError>
    ensures { IfOk result (λ notes. notes.items ≡ notes_of (setting here.now) (typed_tree e.now)) }
{
    let mut notes = Vec::new(alloc);
    note(alloc, &mut notes, here, e)?;
    Ok(notes)
}

/// The notes of the arguments of a call. An error comes where memory runs short.
pub fn arguments_notes(
    alloc: Global,
    here: &Setting<'_>,
    list: &Vec<TypedExpression>,
) -> Result<Vec<Note>, AllocError>
    ensures { IfOk result (λ notes. notes.items ≡
        arguments_notes (setting here.now) (typed_trees_of (map typed_tree list.now.items))) }
{
    let mut notes = Vec::new(alloc);
    let _ = note_arguments(alloc, &mut notes, here, list)?;
    Ok(notes)
}
