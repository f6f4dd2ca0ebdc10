// The instances that statements call.
ghost use Rattle.std.specs.Prelude.{◌≡◌, ◌++◌, IfOk, map};
ghost use Rattle.program_trees.specs.TypedTree.{typed_tree};
ghost use Rattle.program_trees.specs.TypedStatements.{typed_statement, typed_statements_of, optional_tree};
ghost use Rattle.program_trees.specs.TypedPrograms.{typed_program_tree};
ghost use Rattle.reached_instances.specs.Calls.{calls, optional_calls, typed_statement_calls, typed_statements_calls, called_by};
ghost use Rattle.reached_instances.specs.Instances.{instance_seen};
ghost use Rattle.reached_instances.specs.Views.{setting, instances_seen};

use crate::expressions::expression;
use crate::instance::Instance;
use crate::setting::Setting;
use program_trees::{TypedExpression, TypedProgram, TypedStatement};
use std::alloc::{AllocError, Global};

// Notes the instances that an expression calls.
fn evaluation(
    alloc: Global,
    found: &mut Vec<Instance>,
    here: &Setting<'_>,
    e: &TypedExpression,
) -> Result<(), AllocError>
    ensures { IfOk result (λ _. instances_seen found.new.items ≡
        instances_seen found.old.items ++ calls (setting here.now) (typed_tree e.now)) }
{
    let _ = expression(alloc, found, here, e)?;
    Ok(())
}

fn optional(
    alloc: Global,
    found: &mut Vec<Instance>,
    here: &Setting<'_>,
    e: &Option<TypedExpression>,
) -> Result<(), AllocError>
    ensures { IfOk result (λ _. instances_seen found.new.items ≡
        instances_seen found.old.items ++ optional_calls (setting here.now) (optional_tree e.now)) }
{
    match e {
        None => Ok(()),
        Some(e) => evaluation(alloc, found, here, e),
    }
}

// Notes the instances that a statement calls.
#[cycle(statements)]
fn statement(
    alloc: Global,
    found: &mut Vec<Instance>,
    here: &Setting<'_>,
    s: &TypedStatement,
) -> Result<(), AllocError>
    ensures { IfOk result (λ _. instances_seen found.new.items ≡
        instances_seen found.old.items ++ typed_statement_calls (setting here.now) (typed_statement s.now)) }
{
    match s {
        TypedStatement::Empty
        | TypedStatement::Break
        | TypedStatement::Continue
        | TypedStatement::StoreDefault(_)
        | TypedStatement::Input(_, _, _) => Ok(()),
        TypedStatement::Block(list) => statements(alloc, found, here, list),
        TypedStatement::If(e, first, second) => {
            evaluation(alloc, found, here, e)?;
            statement(alloc, found, here, first)?;
            statement(alloc, found, here, second)
        }
        TypedStatement::Loop(e, step, body) => {
            statement(alloc, found, here, body)?;
            statement(alloc, found, here, step)?;
            evaluation(alloc, found, here, e)
        }
        TypedStatement::DoWhile(body, e) => {
            statement(alloc, found, here, body)?;
            evaluation(alloc, found, here, e)
        }
        TypedStatement::Return(e) => optional(alloc, found, here, e),
        TypedStatement::Assert(_, e)
        | TypedStatement::Store(_, e)
        | TypedStatement::Publish(_, e)
        | TypedStatement::Evaluate(e) => evaluation(alloc, found, here, e),
        TypedStatement::Fill(_, _, first, second)
        | TypedStatement::StoreElement(_, _, first, second) => {
            evaluation(alloc, found, here, first)?;
            evaluation(alloc, found, here, second)
        }
    }
}

#[cycle(statements)]
fn statements(
    alloc: Global,
    found: &mut Vec<Instance>,
    here: &Setting<'_>,
    list: &Vec<TypedStatement>,
) -> Result<(), AllocError>
    ensures { IfOk result (λ _. instances_seen found.new.items ≡
        instances_seen found.old.items ++ typed_statements_calls (setting here.now) (typed_statements_of (map typed_statement list.now.items))) }
{
    for each in list {
        statement(alloc, found, here, each)?;
    }
    Ok(())
}

/// What an instance calls, in the order in which its function is read.
pub fn called_by(
    alloc: Global,
    program: &TypedProgram,
    instance: &Instance,
) -> Result<Vec<Instance>, AllocError>
    ensures { IfOk result (λ found. instances_seen found.items ≡
        called_by (typed_program_tree program.now) (instance_seen instance.now)) }
{
    let mut found = Vec::new(alloc);
    if let Some(function) = program.functions.get(instance.function) {
        let here = Setting {
            functions: &program.functions,
            slots: &function.slots,
            binding: &instance.binding,
        };
        statements(alloc, &mut found, &here, &function.body)?;
    }
    Ok(found)
}
