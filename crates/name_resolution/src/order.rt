// Which functions are reached from `main`, in the order in which they are first called.
ghost use Rattle.std.specs.Prelude.{◌≡◌, IfOk, map, option_map};
ghost use Rattle.program_trees.specs.Tree.{expression, trees_of};
ghost use Rattle.program_trees.specs.Statements.{statement, statements_of, optional, declaration_tree, assignment_tree, start_tree, step_tree};
ghost use Rattle.declarations.specs.Views.{declared, tree_at};
ghost use Rattle.name_resolution.specs.Order.{called_in, called_in_all, called_in_optional, called_in_declaration, called_in_assignment};
ghost use Rattle.name_resolution.specs.Order.{called_in_start, called_in_step, called_by, called_by_all, read_one, reached};
ghost use Rattle.name_resolution.specs.inner.Views.{found_seen};

use crate::found::CalledFunctions;
use declarations::Declarations;
use program_trees::{Assignment, Declaration, Expression, ForStart, ForStep, Function, Statement};
use std::alloc::{AllocError, Global};

// These functions and those that an expression calls.
#[cycle(expressions)]
fn in_expression<'p>(
    found: CalledFunctions<'p>,
    declarations: &Declarations<'p>,
    e: &'p Expression,
) -> Result<CalledFunctions<'p>, AllocError>
    ensures { IfOk result (λ f. found_seen f ≡ called_in (declared declarations.now) (found_seen found.entry) (expression e.now)) }
{
    match e {
        Expression::Number(_, _)
        | Expression::Truth(_, _)
        | Expression::Variable(_, _)
        | Expression::Argument(_, _) => Ok(found),
        Expression::Call(_, name, arguments) => {
            let found = in_expressions(found, declarations, arguments)?;
            found.with_callee(declarations, name.as_str())
        }
        Expression::Index(_, left, right) | Expression::Binary(_, _, left, right) => {
            let found = in_expression(found, declarations, left)?;
            in_expression(found, declarations, right)
        }
        Expression::Parentheses(_, operand)
        | Expression::Not(_, operand)
        | Expression::Cast(_, _, operand)
        | Expression::Declassify(_, operand)
        | Expression::Publish(_, _, operand) => in_expression(found, declarations, operand),
    }
}

#[cycle(expressions)]
fn in_expressions<'p>(
    found: CalledFunctions<'p>,
    declarations: &Declarations<'p>,
    list: &'p Vec<Expression>,
) -> Result<CalledFunctions<'p>, AllocError>
    ensures { IfOk result (λ f. found_seen f ≡ called_in_all (declared declarations.now) (found_seen found.entry) (trees_of (map expression list.now.items))) }
{
    let mut found = found;
    for each in list {
        found = in_expression(found, declarations, each)?;
    }
    Ok(found)
}

fn in_optional<'p>(
    found: CalledFunctions<'p>,
    declarations: &Declarations<'p>,
    e: &'p Option<Expression>,
) -> Result<CalledFunctions<'p>, AllocError>
    ensures { IfOk result (λ f. found_seen f ≡ called_in_optional (declared declarations.now) (found_seen found.entry) (optional e.now)) }
{
    match e {
        None => Ok(found),
        Some(e) => in_expression(found, declarations, e),
    }
}

fn in_declaration<'p>(
    found: CalledFunctions<'p>,
    declarations: &Declarations<'p>,
    d: &'p Declaration,
) -> Result<CalledFunctions<'p>, AllocError>
    ensures { IfOk result (λ f. found_seen f ≡ called_in_declaration (declared declarations.now) (found_seen found.entry) (declaration_tree d.now)) }
{
    let found = in_optional(found, declarations, &d.size)?;
    in_optional(found, declarations, &d.value)
}

fn in_assignment<'p>(
    found: CalledFunctions<'p>,
    declarations: &Declarations<'p>,
    a: &'p Assignment,
) -> Result<CalledFunctions<'p>, AllocError>
    ensures { IfOk result (λ f. found_seen f ≡ called_in_assignment (declared declarations.now) (found_seen found.entry) (assignment_tree a.now)) }
{
    let found = in_optional(found, declarations, &a.target.index)?;
    in_expression(found, declarations, &a.value)
}

fn in_start<'p>(
    found: CalledFunctions<'p>,
    declarations: &Declarations<'p>,
    start: &'p ForStart,
) -> Result<CalledFunctions<'p>, AllocError>
    ensures { IfOk result (λ f. found_seen f ≡ called_in_start (declared declarations.now) (found_seen found.entry) (start_tree start.now)) }
{
    match start {
        ForStart::Nothing => Ok(found),
        ForStart::Declaration(d) => in_declaration(found, declarations, d),
        ForStart::Assignment(a) => in_assignment(found, declarations, a),
    }
}

fn in_step<'p>(
    found: CalledFunctions<'p>,
    declarations: &Declarations<'p>,
    step: &'p ForStep,
) -> Result<CalledFunctions<'p>, AllocError>
    ensures { IfOk result (λ f. found_seen f ≡ called_in_step (declared declarations.now) (found_seen found.entry) (step_tree step.now)) }
{
    match step {
        ForStep::Nothing => Ok(found),
        ForStep::Assignment(a) => in_assignment(found, declarations, a),
        ForStep::Expression(e) => in_expression(found, declarations, e),
    }
}

// These functions and those that a statement calls.
#[cycle(statements)]
fn in_statement<'p>(
    found: CalledFunctions<'p>,
    declarations: &Declarations<'p>,
    s: &'p Statement,
) -> Result<CalledFunctions<'p>, AllocError>
    ensures { IfOk result (λ f. found_seen f ≡ called_by (declared declarations.now) (found_seen found.entry) (statement s.now)) }
{
    match s {
        Statement::Block(_, list) => in_statements(found, declarations, list),
        Statement::Empty(_) | Statement::Break(_) | Statement::Continue(_) => Ok(found),
        Statement::If(_, e, body, None) => {
            let found = in_expression(found, declarations, e)?;
            in_statement(found, declarations, body)
        }
        Statement::If(_, e, body, Some(otherwise)) => {
            let found = in_expression(found, declarations, e)?;
            let found = in_statement(found, declarations, body)?;
            in_statement(found, declarations, otherwise)
        }
        Statement::While(_, e, body) | Statement::DoWhile(_, body, e) => {
            let found = in_statement(found, declarations, body)?;
            in_expression(found, declarations, e)
        }
        Statement::For(_, start, e, step, body) => {
            let found = in_start(found, declarations, start)?;
            let found = in_statement(found, declarations, body)?;
            let found = in_step(found, declarations, step)?;
            in_optional(found, declarations, e)
        }
        Statement::Return(_, e) => in_optional(found, declarations, e),
        Statement::Assert(_, e) | Statement::Expression(e) => in_expression(found, declarations, e),
        Statement::Declaration(d) => in_declaration(found, declarations, d),
        Statement::Assignment(a) => in_assignment(found, declarations, a),
    }
}

#[cycle(statements)]
fn in_statements<'p>(
    found: CalledFunctions<'p>,
    declarations: &Declarations<'p>,
    list: &'p Vec<Statement>,
) -> Result<CalledFunctions<'p>, AllocError>
    ensures { IfOk result (λ f. found_seen f
        ≡ called_by_all (declared declarations.now) (found_seen found.entry) (statements_of (map statement list.now.items))) }
{
    let mut found = found;
    for each in list {
        found = in_statement(found, declarations, each)?;
    }
    Ok(found)
}

// These functions and those that one of them calls.
fn read_one<'p>(
    found: CalledFunctions<'p>,
    declarations: &Declarations<'p>,
    function: Option<&'p Function>,
) -> Result<CalledFunctions<'p>, AllocError>
    ensures { IfOk result (λ f. found_seen f ≡ read_one (declared declarations.now) (found_seen found.entry) (option_map tree_at function.entry)) }
{
    match function {
        None => Ok(found),
        Some(function) => in_statements(found, declarations, &function.body.statements),
    }
}

/// The functions that are reached from `main`.
pub fn reached<'p>(
    alloc: Global,
    declarations: &Declarations<'p>,
) -> Result<CalledFunctions<'p>, AllocError>
    ensures { IfOk result (λ f. found_seen f ≡ reached (declared declarations.now)) }
{
    let mut found = CalledFunctions::new(alloc).with_callee(declarations, "main")?;
    for number in 0..declarations.functions.len() {
        let next = found.functions.get(number).copied();
        found = read_one(found, declarations, next)?;
    }
    Ok(found)
}
