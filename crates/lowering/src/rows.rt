// How many rows of registers a function has for values on their way. Each statement begins with the first of them.
ghost use Rattle.std.specs.Prelude.{◌≡◌, IfOk, map, max};
ghost use Rattle.program_trees.specs.TypedTree.{typed_tree};
ghost use Rattle.program_trees.specs.TypedStatements.{typed_statement, typed_statements_of};
ghost use Rattle.reached_instances.specs.Views.{setting};
ghost use Rattle.code_model.specs.Kinds.{depth};
ghost use Rattle.code_model.specs.Statements.{first_free, statement_depth, statements_depth};

use lowered_expressions::{depth, depth_of_two, greater};
use program_trees::{TypedExpression, TypedStatement};
use reached_instances::Setting;
use std::alloc::AllocError;

/// Where the rows begin: after the slots and the registers of the defaults, which are there if there is a slot.
pub fn first_row(here: &Setting<'_>) -> usize
    ensures { result ≡ first_free (setting here.now).slots }
{
    if here.slots.is_empty() {
        0
    } else {
        here.slots.len() + 6
    }
}

// As many rows as a statement has. An error comes where no memory could hold so many, here as in what follows.
#[cycle(depths)]
fn statement_depth(s: &TypedStatement) -> Result<usize, AllocError>
    ensures { IfOk result (λ rows. rows ≡ statement_depth (typed_statement s.now)) }
{
    match s {
        TypedStatement::Empty
        | TypedStatement::Break
        | TypedStatement::Continue
        | TypedStatement::Return(None) => Ok(0),
        TypedStatement::Block(list) => statements_depth(list),
        TypedStatement::If(e, a, b) | TypedStatement::Loop(e, a, b) => parts_depth(e, a, b),
        TypedStatement::DoWhile(repeated, e) => {
            let test = depth(e)?;
            let body = statement_depth(repeated)?;
            Ok(greater(test, body))
        }
        TypedStatement::Return(Some(e))
        | TypedStatement::Assert(_, e)
        | TypedStatement::Store(_, e)
        | TypedStatement::Publish(_, e)
        | TypedStatement::Evaluate(e) => depth(e),
        TypedStatement::StoreDefault(_) | TypedStatement::Input(_, _, _) => Ok(1),
        TypedStatement::Fill(_, _, number, e) | TypedStatement::StoreElement(_, _, number, e) => {
            depth_of_two(number, e)
        }
    }
}

// As many as a test has, or one of two statements that has more.
#[cycle(depths)]
fn parts_depth(
    e: &TypedExpression,
    a: &TypedStatement,
    b: &TypedStatement,
) -> Result<usize, AllocError>
    ensures { IfOk result (λ rows. rows ≡
        max (depth (typed_tree e.now)) (max (statement_depth (typed_statement a.now)) (statement_depth (typed_statement b.now)))) }
{
    let test = depth(e)?;
    let first = statement_depth(a)?;
    let second = statement_depth(b)?;
    Ok(greater(test, greater(first, second)))
}

/// As many rows as the statement has that wants the most. The time grows with the size of the statements.
#[cycle(depths)]
pub fn statements_depth(list: &Vec<TypedStatement>) -> Result<usize, AllocError>
    ensures { IfOk result (λ rows. rows ≡ statements_depth (typed_statements_of (map typed_statement list.now.items))) }
{
    let mut rows = 0;
    for each in list {
        let own = statement_depth(each)?;
        rows = greater(rows, own);
    }
    Ok(rows)
}
