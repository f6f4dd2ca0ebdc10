// The code of statements without others in them.
ghost use Rattle.std.specs.Prelude.{◌≡◌, OnOk};
ghost use Rattle.program_trees.specs.TypedTree.{typed_tree};
ghost use Rattle.program_trees.specs.TypedStatements.{assert_statement, default_statement, evaluate_statement, input_statement, optional_tree, publish_statement};
ghost use Rattle.program_trees.specs.TypedStatements.{return_statement, store_statement};
ghost use Rattle.lowered_expressions.specs.Views.{built, here_of, numbers_of, step_seen};
ghost use Rattle.lowering.specs.inner.Leaves.{pair_statement, pair_step, with_leaf};
ghost use Rattle.lowering.specs.inner.Pieces.{with_statement};
ghost use Rattle.lowering.specs.inner.Views.{numbers_at, place_seen};

use crate::place::LoweringContext;
use crate::rows::first_row;
use lowered_expressions::{
    Around, Body, CallHead, Step, WantedOperand, call, default_register, expression, given_to,
    in_row, kind, kind_of, lacks, next_row, operand, wanted,
};
use program_trees::TypedExpression;
use reached_instances::{slot_is_private, slot_shape};
use sc_text::Name;
use std::alloc::AllocError;

/// `return`, with a value or without. An error comes where memory runs short, here as in what follows.
pub fn returning(
    body: &mut Body<'_>,
    at: &LoweringContext<'_>,
    e: &Option<TypedExpression>,
) -> Result<(), AllocError>
    ensures { OnOk result (built body.new ≡
        with_statement (numbers_at at.now) (place_seen at.now) (built body.old) (return_statement (optional_tree e.now))) }
{
    let Some(e) = e else {
        return body.push(Step::ReturnNone);
    };
    let row = first_row(&at.around.here);
    let source = operand(body, &at.around, at.secret_result, row, e)?;
    body.push(Step::Return { source })
}

/// An assertion.
pub fn assertion(
    body: &mut Body<'_>,
    around: &Around<'_>,
    line: u32,
    e: &TypedExpression,
) -> Result<(), AllocError>
    ensures { OnOk result (built body.new ≡
        with_leaf (numbers_of around.now) (here_of around.now) (built body.old) (assert_statement line (typed_tree e.now))) }
{
    let condition = expression(body, around, first_row(&around.here), e)?;
    body.push(Step::Assert { line, condition })
}

/// A value that is given to the client, under a name.
pub fn publishing<'p>(
    body: &mut Body<'p>,
    around: &Around<'_>,
    text: &'p Name,
    e: &TypedExpression,
) -> Result<(), AllocError>
    ensures { OnOk result (built body.new ≡
        with_leaf (numbers_of around.now) (here_of around.now) (built body.old) (publish_statement text.now (typed_tree e.now))) }
{
    let source = expression(body, around, first_row(&around.here), e)?;
    body.push(Step::Publish { text, source })
}

/// A value that is stored in a slot.
pub fn store(
    body: &mut Body<'_>,
    around: &Around<'_>,
    slot: usize,
    e: &TypedExpression,
) -> Result<(), AllocError>
    ensures { OnOk result (built body.new ≡
        with_leaf (numbers_of around.now) (here_of around.now) (built body.old) (store_statement slot (typed_tree e.now))) }
{
    let private = slot_is_private(&around.here, slot);
    let source = operand(body, around, private, first_row(&around.here), e)?;
    body.push(Step::Store { to: slot, source })
}

/// What a declaration without a value stores: 0, false or the empty array, of a register that nothing writes.
pub fn default_store(
    body: &mut Body<'_>,
    around: &Around<'_>,
    slot: usize,
) -> Result<(), AllocError>
    ensures { OnOk result (built body.new ≡
        with_leaf (numbers_of around.now) (here_of around.now) (built body.old) (default_statement slot)) }
{
    let here = &around.here;
    let shape = slot_shape(here, slot);
    let classified = in_row(first_row(here), kind_of(true, shape))?;
    let source = wanted(
        body,
        WantedOperand {
            lacks: lacks(slot_is_private(here, slot), false),
            classified,
            value: default_register(here, shape),
        },
    )?;
    body.push(Step::Store { to: slot, source })
}

/// The input of a name, stored in a slot.
pub fn input<'p>(
    body: &mut Body<'p>,
    around: &Around<'_>,
    line: u32,
    slot: usize,
    text: &'p Name,
) -> Result<(), AllocError>
    ensures { OnOk result (built body.new ≡
        with_leaf (numbers_of around.now) (here_of around.now) (built body.old) (input_statement line slot text.now)) }
{
    let here = &around.here;
    let kind = kind_of(slot_is_private(here, slot), slot_shape(here, slot));
    let to = in_row(first_row(here), kind)?;
    body.push(Step::Argument {
        line,
        kind,
        text,
        to,
    })?;
    body.push(Step::Store {
        to: slot,
        source: to,
    })
}

/// What is done with a number and a value.
#[derive(Clone, Copy)]
pub enum Pair {
    /// An array of so many elements, each the value.
    Fill,
    /// The value at this place of an array.
    Put,
}

/// A number and a value that are stored: what is done with them, the line of the statement, and the slot of the array.
#[derive(Clone, Copy)]
pub struct PairStore {
    pub pair: Pair,
    pub line: u32,
    pub slot: usize,
}

fn pair_step<'p>(store: PairStore, number: usize, value: usize) -> Step<'p>
    ensures { step_seen result ≡ pair_step store.pair store.line store.slot number value }
{
    let PairStore { pair, line, slot } = store;
    match pair {
        Pair::Fill => Step::Fill {
            line,
            to: slot,
            size: number,
            value,
        },
        Pair::Put => Step::Put {
            line,
            array: slot,
            index: number,
            value,
        },
    }
}

/// A number and a value with which an array in a slot is filled, or one of its elements is written.
pub fn pair_store(
    body: &mut Body<'_>,
    around: &Around<'_>,
    store: PairStore,
    number: &TypedExpression,
    e: &TypedExpression,
) -> Result<(), AllocError>
    ensures { OnOk result (built body.new ≡ with_leaf (numbers_of around.now) (here_of around.now) (built body.old)
        (pair_statement store.pair store.line store.slot (typed_tree number.now) (typed_tree e.now))) }
{
    let private = slot_is_private(&around.here, store.slot);
    let row = first_row(&around.here);
    let behind = next_row(row)?;
    let first = expression(body, around, row, number)?;
    let second = operand(body, around, private, behind, e)?;
    body.push(pair_step(store, first, second))
}

/// An expression that is evaluated for what it does: a call has a register for what it gives only if it gives something.
pub fn unread(
    body: &mut Body<'_>,
    around: &Around<'_>,
    e: &TypedExpression,
) -> Result<(), AllocError>
    ensures { OnOk result (built body.new ≡
        with_leaf (numbers_of around.now) (here_of around.now) (built body.old) (evaluate_statement (typed_tree e.now))) }
{
    let row = first_row(&around.here);
    let TypedExpression::Call(line, function, list) = e else {
        expression(body, around, row, e)?;
        return Ok(());
    };
    let own = in_row(row, kind(around.alloc, &around.here, e)?)?;
    let head = CallHead {
        line: *line,
        function: *function,
        to: given_to(&around.here, *function, own),
    };
    call(body, around, head, row, list)
}
