// The faults of statements: a `for`, and each branch or body, is a block.
ghost use Rattle.std.specs.Prelude.{◌≡◌, ◌++◌, IfOk, map};
ghost use Rattle.program_trees.specs.Statements.{statement, statements_of};
ghost use Rattle.domain_types.specs.Scopes.{inner};
ghost use Rattle.domain_types.specs.StatementTypes.{after, after_all, statement_faults, block_faults};
ghost use Rattle.domain_types.specs.Reached.{statement_calls, block_calls};
ghost use Rattle.domain_types.specs.Views.{setting, calls_seen};
ghost use Rattle.domain_types.specs.inner.LeastFault.{least};

use crate::calls::Found;
use crate::declaring::{assignment, declaration};
use crate::expressions::expression;
use crate::fault::TypeProblem;
use crate::setting::Setting;
use crate::simple_statements::{for_condition, optional_value, returning, start, step};
use crate::values::test;
use crate::variables::Variables;
use program_trees::Statement;
use std::alloc::AllocError;

/// Checks statements in order, each in what is known there.
#[cycle(statements)]
pub fn statements<'p>(
    found: &mut Found,
    here: &Setting<'_, 'p>,
    variables: &mut Variables<'p>,
    list: &'p Vec<Statement>,
) -> Result<(), AllocError>
    ensures least_fault { IfOk result (λ _. found.new.least_fault ≡ least found.old.least_fault
        (block_faults (setting here.now) here.now.function.now.result variables.old (statements_of (map statement list.now.items)))) }
    ensures calls { IfOk result (λ _. calls_seen found.new.calls.items ≡
        calls_seen found.old.calls.items ++ block_calls (setting here.now) variables.old (statements_of (map statement list.now.items))) }
    ensures variables { IfOk result (λ _. variables.new ≡ after_all (setting here.now) variables.old (statements_of (map statement list.now.items))) }
{
    for each in list {
        statement(found, here, variables, each)?;
    }
    Ok(())
}

/// Checks a statement.
#[cycle(statements)]
#[tactic(auto, using(crate::proofs::Faults::joins))]
pub fn statement<'p>(
    found: &mut Found,
    here: &Setting<'_, 'p>,
    variables: &mut Variables<'p>,
    s: &'p Statement,
) -> Result<(), AllocError>
    ensures least_fault { IfOk result (λ _. found.new.least_fault ≡ least found.old.least_fault
        (statement_faults (setting here.now) here.now.function.now.result variables.old (statement s.now))) }
    ensures calls { IfOk result (λ _. calls_seen found.new.calls.items ≡
        calls_seen found.old.calls.items ++ statement_calls (setting here.now) variables.old (statement s.now)) }
    ensures variables { IfOk result (λ _. variables.new ≡ after (setting here.now) variables.old (statement s.now)) }
{
    match s {
        Statement::Block(_, list) => {
            let outer = variables.enter();
            statements(found, here, variables, list)?;
            variables.leave(outer);
            Ok(())
        }
        Statement::Empty(_) | Statement::Break(_) | Statement::Continue(_) => Ok(()),
        Statement::If(_, e, body, otherwise) => {
            test(found, here, variables, TypeProblem::PrivateCondition, e)?;
            inside(found, here, variables, body)?;
            match otherwise {
                None => Ok(()),
                Some(otherwise) => inside(found, here, variables, otherwise),
            }
        }
        Statement::While(_, e, body) => {
            test(found, here, variables, TypeProblem::PrivateCondition, e)?;
            inside(found, here, variables, body)
        }
        Statement::DoWhile(_, body, e) => {
            inside(found, here, variables, body)?;
            test(found, here, variables, TypeProblem::PrivateCondition, e)
        }
        Statement::For(_, first, e, last, body) => {
            let outer = variables.enter();
            start(found, here, variables, first)?;
            let given = optional_value(found, here, variables, e)?;
            let typed = step(found, here, variables, last)?;
            for_condition(&mut found.least_fault, e, given, typed);
            inside(found, here, variables, body)?;
            variables.leave(outer);
            Ok(())
        }
        Statement::Return(place, e) => {
            let given = optional_value(found, here, variables, e)?;
            returning(&mut found.least_fault, here, *place, e, given);
            Ok(())
        }
        Statement::Assert(_, e) => test(found, here, variables, TypeProblem::PrivateAssert, e),
        Statement::Declaration(d) => declaration(found, here, variables, d),
        Statement::Assignment(a) => assignment(found, here, variables, a),
        Statement::Expression(e) => {
            let _ = expression(found, here, variables, e)?;
            Ok(())
        }
    }
}

// Checks a statement in a block of its own.
#[cycle(statements)]
fn inside<'p>(
    found: &mut Found,
    here: &Setting<'_, 'p>,
    variables: &mut Variables<'p>,
    s: &'p Statement,
) -> Result<(), AllocError>
    ensures least_fault { IfOk result (λ _. found.new.least_fault ≡ least found.old.least_fault
        (statement_faults (setting here.now) here.now.function.now.result (inner variables.old) (statement s.now))) }
    ensures calls { IfOk result (λ _. calls_seen found.new.calls.items ≡
        calls_seen found.old.calls.items ++ statement_calls (setting here.now) (inner variables.old) (statement s.now)) }
    ensures variables { IfOk result (λ _. variables.new ≡ variables.old) }
{
    let outer = variables.enter();
    statement(found, here, variables, s)?;
    variables.leave(outer);
    Ok(())
}
