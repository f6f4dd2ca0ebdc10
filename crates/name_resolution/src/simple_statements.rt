// Statements that hold no other statement, and the parts of a `for`.
ghost use Rattle.std.specs.Prelude.{◌≡◌, IfOk};
ghost use Rattle.program_trees.specs.Tree.{expression};
ghost use Rattle.program_trees.specs.Statements.{optional, declaration_tree, assignment_tree, start_tree, step_tree};
ghost use Rattle.declarations.specs.Views.{declared};
ghost use Rattle.program_trees.specs.TypedTree.{typed_tree};
ghost use Rattle.program_trees.specs.TypedStatements.{typed_statement};
ghost use Rattle.name_resolution.specs.Resolving.{resolved_value, known_at};
ghost use Rattle.name_resolution.specs.Bodies.{evaluated, default_of, from_value, initial, declared as declared_at, assigned_to, assigned, started};
ghost use Rattle.name_resolution.specs.Bodies.{stepped, condition_of, returned};
ghost use Rattle.name_resolution.specs.Answer.{Answers};
ghost use Rattle.name_resolution.specs.inner.Views.{place_seen, with_place};

use crate::place::FunctionScope;
use crate::resolve_err::ResolveErr;
use crate::values::{call, value};
use crate::variables::Known;
use declarations::Declarations;
use program_trees::{
    Assignment, DataType, Declaration, Expression, ForStart, ForStep, TypedExpression,
    TypedStatement,
};
use std::alloc::Global;

/// An expression that gives a value.
pub fn expression<'p>(
    alloc: Global,
    declarations: &Declarations<'p>,
    place: &FunctionScope<'p>,
    e: &'p Expression,
) -> Result<TypedExpression, ResolveErr>
    ensures { Answers typed_tree result (resolved_value (declared declarations.now) (expression e.now) (place_seen place.now)) }
{
    let value = value(alloc, declarations, &place.variables, e)?;
    Ok(value.tree)
}

// The variable of a name.
fn named<'p>(place: &FunctionScope<'p>, name: &'p str) -> Result<Known, ResolveErr>
    ensures { Answers (λ k. k) result (known_at name.now (place_seen place.now)) }
{
    match place.variables.find(name) {
        Some(known) => Ok(known),
        None => Err(ResolveErr::Unresolved),
    }
}

/// An expression that is evaluated for what it does.
pub fn evaluated<'p>(
    alloc: Global,
    declarations: &Declarations<'p>,
    place: &FunctionScope<'p>,
    e: &'p Expression,
) -> Result<TypedStatement, ResolveErr>
    ensures { Answers (with_place typed_statement (place_seen place.now)) result
        (evaluated (declared declarations.now) (expression e.now) (place_seen place.now)) }
{
    match e {
        Expression::Publish(_, name, operand) => {
            let value = expression(alloc, declarations, place, operand)?;
            Ok(TypedStatement::Publish(name.copy(alloc)?, value))
        }
        Expression::Call(at, name, arguments) => {
            let made = call(
                alloc,
                declarations,
                &place.variables,
                at.line,
                name.as_str(),
                arguments,
            )?;
            Ok(TypedStatement::Evaluate(made.tree))
        }
        _ => {
            let value = expression(alloc, declarations, place, e)?;
            Ok(TypedStatement::Evaluate(value))
        }
    }
}

// What fills an array where no value is given.
fn default_of(element: DataType) -> TypedExpression
    ensures { typed_tree result ≡ default_of element }
{
    match element {
        DataType::Uint64 => TypedExpression::Word(0),
        DataType::Int64 => TypedExpression::Zero,
        DataType::Bool => TypedExpression::Truth(false),
    }
}

// Stores the initialiser of a declaration without a size.
fn from_value<'p>(
    alloc: Global,
    declarations: &Declarations<'p>,
    place: &FunctionScope<'p>,
    slot: usize,
    e: &'p Expression,
) -> Result<TypedStatement, ResolveErr>
    ensures { Answers (with_place typed_statement (place_seen place.now)) result
        (from_value (declared declarations.now) slot (expression e.now) (place_seen place.now)) }
{
    match e {
        Expression::Argument(at, name) => {
            Ok(TypedStatement::Input(at.line, slot, name.copy(alloc)?))
        }
        _ => {
            let value = expression(alloc, declarations, place, e)?;
            Ok(TypedStatement::Store(slot, value))
        }
    }
}

// What a declaration stores in its slot.
fn initial<'p>(
    alloc: Global,
    declarations: &Declarations<'p>,
    place: &FunctionScope<'p>,
    slot: usize,
    d: &'p Declaration,
) -> Result<TypedStatement, ResolveErr>
    ensures { Answers (with_place typed_statement (place_seen place.now)) result
        (initial (declared declarations.now) d.now.declared.place.line slot d.now.declared.element (optional d.now.size) (optional d.now.value)
        (place_seen place.now)) }
{
    let line = d.declared.place.line;
    match (&d.size, &d.value) {
        (None, None) => Ok(TypedStatement::StoreDefault(slot)),
        (None, Some(e)) => from_value(alloc, declarations, place, slot, e),
        (Some(size), None) => {
            let size = expression(alloc, declarations, place, size)?;
            Ok(TypedStatement::Fill(line, slot, size, default_of(d.declared.element)))
        }
        (Some(size), Some(e)) => {
            let size = expression(alloc, declarations, place, size)?;
            let value = expression(alloc, declarations, place, e)?;
            Ok(TypedStatement::Fill(line, slot, size, value))
        }
    }
}

/// A declaration.
pub fn declared<'p>(
    alloc: Global,
    declarations: &Declarations<'p>,
    place: &mut FunctionScope<'p>,
    d: &'p Declaration,
) -> Result<TypedStatement, ResolveErr>
    ensures made { Answers (with_place typed_statement (place_seen place.new)) result
        (declared_at (declared declarations.now) (declaration_tree d.now) (place_seen place.old)) }
    ensures outer { IfOk result (λ _. (place_seen place.new).scope.outer ≡ (place_seen place.old).scope.outer) }
{
    let slot = place.slots.len();
    let first = initial(alloc, declarations, place, slot, d)?;
    place.declare(&d.variable, &d.declared)?;
    Ok(first)
}

// What goes to the variable of this slot, or to an element of it.
fn assigned_to<'p>(
    alloc: Global,
    declarations: &Declarations<'p>,
    place: &FunctionScope<'p>,
    slot: usize,
    a: &'p Assignment,
) -> Result<TypedStatement, ResolveErr>
    ensures { Answers (with_place typed_statement (place_seen place.now)) result
        (assigned_to (declared declarations.now) a.now.target.variable.place.line slot (optional a.now.target.index) (expression a.now.value)
        (place_seen place.now)) }
{
    match &a.target.index {
        None => {
            let value = expression(alloc, declarations, place, &a.value)?;
            Ok(TypedStatement::Store(slot, value))
        }
        Some(position) => {
            let position = expression(alloc, declarations, place, position)?;
            let value = expression(alloc, declarations, place, &a.value)?;
            let line = a.target.variable.place.line;
            Ok(TypedStatement::StoreElement(line, slot, position, value))
        }
    }
}

/// An assignment.
pub fn assigned<'p>(
    alloc: Global,
    declarations: &Declarations<'p>,
    place: &FunctionScope<'p>,
    a: &'p Assignment,
) -> Result<TypedStatement, ResolveErr>
    ensures { Answers (with_place typed_statement (place_seen place.now)) result
        (assigned (declared declarations.now) (assignment_tree a.now) (place_seen place.now)) }
{
    let known = named(place, a.target.variable.text.as_str())?;
    assigned_to(alloc, declarations, place, known.slot, a)
}

/// The first part of a `for`.
pub fn started<'p>(
    alloc: Global,
    declarations: &Declarations<'p>,
    place: &mut FunctionScope<'p>,
    start: &'p ForStart,
) -> Result<TypedStatement, ResolveErr>
    ensures made { Answers (with_place typed_statement (place_seen place.new)) result
        (started (declared declarations.now) (start_tree start.now) (place_seen place.old)) }
    ensures outer { IfOk result (λ _. (place_seen place.new).scope.outer ≡ (place_seen place.old).scope.outer) }
{
    match start {
        ForStart::Nothing => Ok(TypedStatement::Empty),
        ForStart::Declaration(d) => declared(alloc, declarations, place, d),
        ForStart::Assignment(a) => assigned(alloc, declarations, place, a),
    }
}

/// The third part of a `for`.
pub fn stepped<'p>(
    alloc: Global,
    declarations: &Declarations<'p>,
    place: &FunctionScope<'p>,
    step: &'p ForStep,
) -> Result<TypedStatement, ResolveErr>
    ensures { Answers (with_place typed_statement (place_seen place.now)) result
        (stepped (declared declarations.now) (step_tree step.now) (place_seen place.now)) }
{
    match step {
        ForStep::Nothing => Ok(TypedStatement::Empty),
        ForStep::Assignment(a) => assigned(alloc, declarations, place, a),
        ForStep::Expression(e) => evaluated(alloc, declarations, place, e),
    }
}

/// The condition of a `for`, which is true where it is left out.
pub fn condition_of<'p>(
    alloc: Global,
    declarations: &Declarations<'p>,
    place: &FunctionScope<'p>,
    e: &'p Option<Expression>,
) -> Result<TypedExpression, ResolveErr>
    ensures { Answers (with_place typed_tree (place_seen place.now)) result (condition_of (declared declarations.now) (optional e.now) (place_seen place.now)) }
{
    match e {
        None => Ok(TypedExpression::Truth(true)),
        Some(e) => expression(alloc, declarations, place, e),
    }
}

/// A `return`.
pub fn returned<'p>(
    alloc: Global,
    declarations: &Declarations<'p>,
    place: &FunctionScope<'p>,
    e: &'p Option<Expression>,
) -> Result<TypedStatement, ResolveErr>
    ensures { Answers (with_place typed_statement (place_seen place.now)) result
        (returned (declared declarations.now) (optional e.now) (place_seen place.now)) }
{
    match e {
        None => Ok(TypedStatement::Return(None)),
        Some(e) => {
            let value = expression(alloc, declarations, place, e)?;
            Ok(TypedStatement::Return(Some(value)))
        }
    }
}
