// The code of statements with others in them. They call one another, so they stand together.
ghost use Rattle.std.specs.Prelude.{◌≡◌, OnOk, map};
ghost use Rattle.program_trees.specs.TypedTree.{typed_tree};
ghost use Rattle.program_trees.specs.TypedStatements.{typed_statement, typed_statements_of, do_statement, if_statement, loop_statement};
ghost use Rattle.lowered_expressions.specs.Views.{built};
ghost use Rattle.lowering.specs.inner.Pieces.{with_statement, with_statements};
ghost use Rattle.lowering.specs.inner.Views.{numbers_at, place_seen};

use crate::place::LoweringContext;
use crate::rows::first_row;
use crate::settling::{push, settle};
use crate::simple_statements::{
    Pair, PairStore, assertion, default_store, input, pair_store, publishing, returning, store,
    unread,
};
use lowered_expressions::{Body, BodyPiece, Step, expression};
use program_trees::{TypedExpression, TypedStatement};
use std::alloc::AllocError;

/// Puts the code of a statement after a body. An error comes where memory runs short.
#[cycle(statements)]
fn statement<'p>(
    body: &mut Body<'p>,
    at: &LoweringContext<'_>,
    s: &'p TypedStatement,
) -> Result<(), AllocError>
    ensures { OnOk result (built body.new ≡ with_statement (numbers_at at.now) (place_seen at.now) (built body.old) (typed_statement s.now)) }
{
    match s {
        TypedStatement::Empty => Ok(()),
        TypedStatement::Block(list) => statements(body, at, list),
        TypedStatement::If(e, first, second) => choice(body, at, e, first, second),
        TypedStatement::Loop(e, step, repeated) => turns(body, at, e, step, repeated),
        TypedStatement::DoWhile(repeated, e) => repeats(body, at, repeated, e),
        TypedStatement::Break => push(body, BodyPiece::Break),
        TypedStatement::Continue => push(body, BodyPiece::Continue),
        TypedStatement::Return(e) => returning(body, at, e),
        TypedStatement::Assert(line, e) => assertion(body, &at.around, *line, e),
        TypedStatement::Store(slot, e) => store(body, &at.around, *slot, e),
        TypedStatement::StoreDefault(slot) => default_store(body, &at.around, *slot),
        TypedStatement::Fill(line, slot, size, e) => {
            let fill = PairStore {
                pair: Pair::Fill,
                line: *line,
                slot: *slot,
            };
            pair_store(body, &at.around, fill, size, e)
        }
        TypedStatement::Input(line, slot, text) => { input(body, &at.around, *line, *slot, text) }
        TypedStatement::StoreElement(line, slot, position, e) => {
            let put = PairStore {
                pair: Pair::Put,
                line: *line,
                slot: *slot,
            };
            pair_store(body, &at.around, put, position, e)
        }
        TypedStatement::Publish(text, e) => publishing(body, &at.around, text, e),
        TypedStatement::Evaluate(e) => unread(body, &at.around, e),
    }
}

/// Likewise for statements one after another.
#[cycle(statements)]
pub fn statements<'p>(
    body: &mut Body<'p>,
    at: &LoweringContext<'_>,
    list: &'p Vec<TypedStatement>,
) -> Result<(), AllocError>
    ensures { OnOk result (built body.new ≡
        with_statements (numbers_at at.now) (place_seen at.now) (built body.old) (typed_statements_of (map typed_statement list.now.items))) }
{
    for each in list {
        statement(body, at, each)?;
    }
    Ok(())
}

// The one statement or the other.
#[cycle(statements)]
fn choice<'p>(
    body: &mut Body<'p>,
    at: &LoweringContext<'_>,
    e: &TypedExpression,
    first: &'p TypedStatement,
    second: &'p TypedStatement,
) -> Result<(), AllocError>
    ensures { OnOk result (built body.new ≡ with_statement (numbers_at at.now) (place_seen at.now) (built body.old)
        (if_statement (typed_tree e.now) (typed_statement first.now) (typed_statement second.now))) }
{
    let condition = expression(body, &at.around, first_row(&at.around.here), e)?;
    let branch = body.next_place();
    body.push(Step::ReturnNone)?;
    statement(body, at, first)?;
    let jump = body.next_place();
    body.push(Step::ReturnNone)?;
    let target = body.next_place();
    statement(body, at, second)?;
    let end = body.next_place();
    body.set(
        branch,
        Step::Branch {
            condition,
            value: false,
            target,
        },
    );
    body.set(jump, Step::Jump { target: end });
    Ok(())
}

// A loop: its test stands after the body and the step.
#[cycle(statements)]
fn turns<'p>(
    body: &mut Body<'p>,
    at: &LoweringContext<'_>,
    e: &TypedExpression,
    step: &'p TypedStatement,
    repeated: &'p TypedStatement,
) -> Result<(), AllocError>
    ensures { OnOk result (built body.new ≡ with_statement (numbers_at at.now) (place_seen at.now) (built body.old)
        (loop_statement (typed_tree e.now) (typed_statement step.now) (typed_statement repeated.now))) }
{
    let jump = body.next_place();
    body.push(Step::ReturnNone)?;
    let start = body.next_place();
    statement(body, at, repeated)?;
    let onward = body.next_place();
    statement(body, at, step)?;
    let test = body.next_place();
    let condition = expression(body, &at.around, first_row(&at.around.here), e)?;
    body.push(Step::Branch {
        condition,
        value: true,
        target: start,
    })?;
    let end = body.next_place();
    body.set(jump, Step::Jump { target: test });
    settle(body, start, onward, end, onward);
    settle(body, onward, test, end, test);
    Ok(())
}

// A loop whose test stands after each turn.
#[cycle(statements)]
fn repeats<'p>(
    body: &mut Body<'p>,
    at: &LoweringContext<'_>,
    repeated: &'p TypedStatement,
    e: &TypedExpression,
) -> Result<(), AllocError>
    ensures { OnOk result (built body.new ≡ with_statement (numbers_at at.now) (place_seen at.now) (built body.old)
        (do_statement (typed_statement repeated.now) (typed_tree e.now))) }
{
    let start = body.next_place();
    statement(body, at, repeated)?;
    let test = body.next_place();
    let condition = expression(body, &at.around, first_row(&at.around.here), e)?;
    body.push(Step::Branch {
        condition,
        value: true,
        target: start,
    })?;
    let end = body.next_place();
    settle(body, start, test, end, test);
    Ok(())
}
