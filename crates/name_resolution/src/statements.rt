// Statements: a `for`, and each branch or body, is a block.
ghost use Rattle.std.specs.Prelude.{◌≡◌, IfOk, map};
ghost use Rattle.program_trees.specs.Statements.{statement, statements_of, start_tree, step_tree, optional};
ghost use Rattle.declarations.specs.Views.{declared};
ghost use Rattle.program_trees.specs.TypedStatements.{typed_statement};
ghost use Rattle.name_resolution.specs.Resolving.{in_block};
ghost use Rattle.name_resolution.specs.Bodies.{looped, resolved, resolved_all};
ghost use Rattle.name_resolution.specs.Answer.{Answers};
ghost use Rattle.name_resolution.specs.inner.Views.{place_seen, with_place, typed_statement_in, typed_statements_seen};

use crate::place::FunctionScope;
use crate::resolve_err::ResolveErr;
use crate::simple_statements::{
    assigned, condition_of, declared, evaluated, expression, returned, started, stepped,
};
use declarations::Declarations;
use program_trees::{Expression, ForStart, ForStep, Statement, TypedStatement};
use std::alloc::Global;

/// Statements one after another.
#[cycle(statements)]
pub fn statements<'p>(
    alloc: Global,
    declarations: &Declarations<'p>,
    place: &mut FunctionScope<'p>,
    list: &'p Vec<Statement>,
) -> Result<Vec<TypedStatement>, ResolveErr>
    ensures made { Answers (with_place typed_statements_seen (place_seen place.new)) result
        (resolved_all (declared declarations.now) (statements_of (map statement list.now.items)) (place_seen place.old)) }
    ensures outer { IfOk result (λ _. (place_seen place.new).scope.outer ≡ (place_seen place.old).scope.outer) }
{
    let mut made = Vec::new(alloc);
    for each in list {
        let next = statement(alloc, declarations, place, each)?;
        made.push(next)?;
    }
    Ok(made)
}

/// A statement.
#[cycle(statements)]
pub fn statement<'p>(
    alloc: Global,
    declarations: &Declarations<'p>,
    place: &mut FunctionScope<'p>,
    s: &'p Statement,
) -> Result<TypedStatement, ResolveErr>
    ensures made { Answers (with_place typed_statement (place_seen place.new)) result
        (resolved (declared declarations.now) (statement s.now) (place_seen place.old)) }
    ensures outer { IfOk result (λ _. (place_seen place.new).scope.outer ≡ (place_seen place.old).scope.outer) }
{
    match s {
        Statement::Block(_, list) => {
            let outer = place.enter();
            let inner = statements(alloc, declarations, place, list)?;
            place.leave(outer);
            Ok(TypedStatement::Block(inner))
        }
        Statement::Empty(_) => Ok(TypedStatement::Empty),
        Statement::If(_, e, body, None) => {
            let condition = expression(alloc, declarations, place, e)?;
            let body = inside(alloc, declarations, place, body)?;
            let nothing = Box::new(alloc, TypedStatement::Empty)?;
            Ok(TypedStatement::If(condition, body, nothing))
        }
        Statement::If(_, e, body, Some(otherwise)) => {
            let condition = expression(alloc, declarations, place, e)?;
            let body = inside(alloc, declarations, place, body)?;
            let otherwise = inside(alloc, declarations, place, otherwise)?;
            Ok(TypedStatement::If(condition, body, otherwise))
        }
        Statement::While(_, e, body) => {
            let condition = expression(alloc, declarations, place, e)?;
            let body = inside(alloc, declarations, place, body)?;
            let nothing = Box::new(alloc, TypedStatement::Empty)?;
            Ok(TypedStatement::Loop(condition, nothing, body))
        }
        Statement::DoWhile(_, body, e) => {
            let body = inside(alloc, declarations, place, body)?;
            let condition = expression(alloc, declarations, place, e)?;
            Ok(TypedStatement::DoWhile(body, condition))
        }
        Statement::For(_, start, e, step, body) => {
            let head = ForHead {
                start,
                condition: e,
                step,
            };
            let outer = place.enter();
            let made = looped(alloc, declarations, place, head, body)?;
            place.leave(outer);
            Ok(made)
        }
        Statement::Break(_) => Ok(TypedStatement::Break),
        Statement::Continue(_) => Ok(TypedStatement::Continue),
        Statement::Return(_, e) => returned(alloc, declarations, place, e),
        Statement::Assert(at, e) => {
            let condition = expression(alloc, declarations, place, e)?;
            Ok(TypedStatement::Assert(at.line, condition))
        }
        Statement::Declaration(d) => declared(alloc, declarations, place, d),
        Statement::Assignment(a) => assigned(alloc, declarations, place, a),
        Statement::Expression(e) => evaluated(alloc, declarations, place, e),
    }
}

// A statement in a block of its own.
#[cycle(statements)]
fn inside<'p>(
    alloc: Global,
    declarations: &Declarations<'p>,
    place: &mut FunctionScope<'p>,
    s: &'p Statement,
) -> Result<Box<TypedStatement>, ResolveErr>
    ensures made { Answers (with_place typed_statement_in (place_seen place.new)) result
        (in_block (resolved (declared declarations.now) (statement s.now)) (place_seen place.old)) }
    ensures outer { IfOk result (λ _. (place_seen place.new).scope.outer ≡ (place_seen place.old).scope.outer) }
{
    let outer = place.enter();
    let made = statement(alloc, declarations, place, s)?;
    place.leave(outer);
    Ok(Box::new(alloc, made)?)
}

// The head of a `for`: what stands before its body.
#[derive(Clone, Copy)]
struct ForHead<'p> {
    start: &'p ForStart,
    condition: &'p Option<Expression>,
    step: &'p ForStep,
}

// The parts of a `for`, in its block.
#[cycle(statements)]
fn looped<'p>(
    alloc: Global,
    declarations: &Declarations<'p>,
    place: &mut FunctionScope<'p>,
    head: ForHead<'p>,
    body: &'p Statement,
) -> Result<TypedStatement, ResolveErr>
    ensures made { Answers (with_place typed_statement (place_seen place.new)) result
        (looped (declared declarations.now) (start_tree head.entry.start.now) (optional head.entry.condition.now) (step_tree head.entry.step.now)
        (resolved (declared declarations.now) (statement body.now)) (place_seen place.old)) }
    ensures outer { IfOk result (λ _. (place_seen place.new).scope.outer ≡ (place_seen place.old).scope.outer) }
{
    let start = started(alloc, declarations, place, head.start)?;
    let condition = condition_of(alloc, declarations, place, head.condition)?;
    let step = Box::new(alloc, stepped(alloc, declarations, place, head.step)?)?;
    let body = inside(alloc, declarations, place, body)?;
    let turns = TypedStatement::Loop(condition, step, body);
    let both = Vec::from_array(alloc, [start, turns])?;
    Ok(TypedStatement::Block(both))
}
