// The steps of expressions and statements, once their parts are evaluated.
ghost use Rattle.std.specs.Prelude.{◌≡◌, ◌≤◌, true, length, map};
ghost use Rattle.program_trees.specs.TypedTree.{typed_tree};
ghost use Rattle.program_trees.specs.TypedStatements.{typed_statement};
ghost use Rattle.program_trees.specs.Sound.{IsSoundTree, IsSoundStatementTree};
ghost use Rattle.reached_instances.specs.Views.{setting};
ghost use Rattle.language_model.specs.Operations.{wanted};
ghost use Rattle.language_model.specs.Evaluation.{gives_private, truth_value};
ghost use Rattle.value_steps.specs.Steps.{Does};
ghost use Rattle.value_steps.specs.Views.{value_seen, stage_seen, world_seen};
ghost use Rattle.clear_eval.specs.inner.Views.{frame_seen, flow_seen, held_seen, place_seen};
ghost use Rattle.clear_eval.specs.inner.Parts.{is_leaf, step_on_one, step_on_two, is_plain, after_one, after_two};
ghost use Rattle.clear_eval.specs.inner.Standing.{evaluation_at, flow_at, IsSoundIn, IsSoundStatement};

use crate::flow::Flow;
use crate::held::Held;
use crate::place::{Around, StatementContext};
use crate::slots::{ArrayPlace, default_value, put, set_element, slot_value, store};
use crate::words::{truth_value, zero_with_sign};
use program_trees::{Operation, TypedExpression, TypedStatement};
use reached_instances::{domain, slot_is_private, slot_shape};
use std::alloc::Global;
use value_steps::{
    Asked, Halt, Stage, Value, World, asked_for, asserted, bits_extracted, cast_to, declassified,
    element_of_array, filled, lookup, negated, operation, published, size_told, summed, wanted,
};

/// The value of a literal or a variable.
#[tactic(auto, unfolding(language_model::specs::Evaluation::value))]
#[inline(never)]
pub fn leaf(
    around: &Around<'_, '_>,
    stage: &mut Stage<'_>,
    frame: &Vec<Value>,
    e: &TypedExpression,
) -> Result<Value, Halt>
    requires here { IsSoundIn around.now.at frame.now.items e.now }
    requires leaf { is_leaf (typed_tree e.now) ≡ true }
    ensures step { Does value_seen (evaluation_at around.now frame.now.items e.now) (stage_seen stage.old) result (stage_seen stage.new) }
    ensures spends { stage.new.left ≤ stage.old.left }
{
    match e {
        TypedExpression::Word(word) => Ok(Value::number(around.alloc, *word)?),
        TypedExpression::Truth(truth) => Ok(truth_value(around.alloc, *truth)?),
        TypedExpression::Zero => Ok(zero_with_sign(around.alloc)?),
        TypedExpression::Variable(slot) => Ok(slot_value(frame, *slot).copy(around.alloc)?),
        _ => unreachable!(),
    }
}

/// The step of an expression with one operand, on its value.
#[inline(never)]
pub fn on_one(
    alloc: Global,
    world: &World<'_>,
    stage: &mut Stage<'_>,
    e: &TypedExpression,
    x: Held<'_>,
) -> Result<Value, Halt>
    ensures step { Does value_seen (step_on_one (world_seen world.now) (typed_tree e.now) (held_seen x.entry)) (stage_seen stage.old) result
        (stage_seen stage.new) }
    ensures spends { stage.new.left ≤ stage.old.left }
{
    match e {
        TypedExpression::Size(_) => size_told(alloc, stage, x.get()),
        TypedExpression::Sum(_) => summed(alloc, stage, x.get()),
        TypedExpression::BitExtract(line, _) => bits_extracted(alloc, world, stage, *line, x.get()),
        TypedExpression::Not(_) => negated(alloc, stage, x.into_value(alloc)?),
        TypedExpression::Cast(cast, _) => cast_to(alloc, world, stage, *cast, x.into_value(alloc)?),
        TypedExpression::Declassify(_) => declassified(alloc, world, stage, x.into_value(alloc)?),
        _ => Ok(x.into_value(alloc)?),
    }
}

/// The step of an expression with two operands, on their values.
#[inline(never)]
pub fn on_two(
    alloc: Global,
    world: &World<'_>,
    stage: &mut Stage<'_>,
    e: &TypedExpression,
    x: Held<'_>,
    y: Held<'_>,
) -> Result<Value, Halt>
    ensures step { Does value_seen (step_on_two (world_seen world.now) (typed_tree e.now) (held_seen x.entry) (held_seen y.entry))
        (stage_seen stage.old) result (stage_seen stage.new) }
    ensures spends { stage.new.left ≤ stage.old.left }
{
    match e {
        TypedExpression::Lookup(line, _, _) => {
            let array = x.into_value(alloc)?;
            let index = y.into_value(alloc)?;
            lookup(alloc, world, stage, *line, array, index)
        }
        TypedExpression::Element(line, _, _) => {
            element_of_array(alloc, stage, *line, x.get(), y.get())
        }
        TypedExpression::Binary(line, operator, operands, _, _) => {
            let x = x.into_value(alloc)?;
            let y = y.into_value(alloc)?;
            let step = Operation {
                line: *line,
                operator: *operator,
                operands: *operands,
            };
            operation(alloc, world, stage, step, x, y)
        }
        _ => Ok(x.into_value(alloc)?),
    }
}

/// The value of a connective whose left operand decides alone, as it is wanted where the right operand is private or not.
#[inline(never)]
pub fn decided(
    alloc: Global,
    at: &StatementContext<'_>,
    stage: &mut Stage<'_>,
    truth: bool,
    right: &TypedExpression,
) -> Result<Value, Halt>
    ensures step { Does value_seen (wanted (gives_private (setting at.now.here) (typed_tree right.now)) (truth_value truth))
        (stage_seen stage.old) result (stage_seen stage.new) }
    ensures spends { stage.new.left ≤ stage.old.left }
{
    let private = domain(alloc, &at.here, right)?.is_private();
    let value = truth_value(alloc, truth)?;
    wanted(alloc, stage, private, value)
}

/// A statement without expressions and other statements in it.
#[tactic(auto, unfolding(language_model::specs::Evaluation::execute))]
#[inline(never)]
pub fn plain(
    around: &Around<'_, '_>,
    stage: &mut Stage<'_>,
    frame: &mut Vec<Value>,
    s: &TypedStatement,
) -> Result<Flow, Halt>
    requires here { IsSoundStatement around.now.at frame.old.items s.now }
    requires plain { is_plain (typed_statement s.now) ≡ true }
    ensures step { Does (flow_seen frame.new.items) (flow_at around.now frame.old.items s.now) (stage_seen stage.old) result (stage_seen stage.new) }
    ensures slots { length frame.new.items ≡ length frame.old.items }
    ensures spends { stage.new.left ≤ stage.old.left }
{
    match s {
        TypedStatement::Empty => Ok(Flow::Goes),
        TypedStatement::Break => Ok(Flow::Stops),
        TypedStatement::Continue => Ok(Flow::Skips),
        TypedStatement::Return(None) => Ok(Flow::Returns(Value::unread(around.alloc)?)),
        TypedStatement::StoreDefault(slot) => {
            let value = default_value(around.alloc, &around.at, *slot)?;
            store(around.alloc, &around.at, stage, frame, *slot, value)
        }
        TypedStatement::Input(line, slot, name) => {
            let asked = Asked {
                line: *line,
                private: slot_is_private(&around.at.here, *slot),
                shape: slot_shape(&around.at.here, *slot),
            };
            let value = asked_for(around.alloc, around.world, stage, asked, name)?;
            store(around.alloc, &around.at, stage, frame, *slot, value)
        }
        _ => unreachable!(),
    }
}

/// The step of a statement with one expression, on its value.
#[inline(never)]
pub fn with_one(
    around: &Around<'_, '_>,
    stage: &mut Stage<'_>,
    frame: &mut Vec<Value>,
    s: &TypedStatement,
    x: Value,
) -> Result<Flow, Halt>
    requires { IsSoundStatement around.now.at frame.old.items s.now }
    ensures step { Does (flow_seen frame.new.items)
        (after_one (world_seen around.now.world.now) (place_seen around.now.at) (typed_statement s.now) (value_seen x) (frame_seen frame.old.items))
        (stage_seen stage.old) result (stage_seen stage.new) }
    ensures slots { length frame.new.items ≡ length frame.old.items }
    ensures spends { stage.new.left ≤ stage.old.left }
{
    match s {
        TypedStatement::Return(Some(_)) => {
            let value = wanted(around.alloc, stage, around.at.private_result, x)?;
            Ok(Flow::Returns(value))
        }
        TypedStatement::Assert(line, _) => {
            asserted(stage, *line, &x)?;
            Ok(Flow::Goes)
        }
        TypedStatement::Store(slot, _) => {
            store(around.alloc, &around.at, stage, frame, *slot, x)
        }
        TypedStatement::Publish(name, _) => {
            published(around.alloc, around.world, stage, name, &x)?;
            Ok(Flow::Goes)
        }
        _ => Ok(Flow::Goes),
    }
}

/// The step of a statement with two expressions, on their values.
#[inline(never)]
pub fn with_two(
    around: &Around<'_, '_>,
    stage: &mut Stage<'_>,
    frame: &mut Vec<Value>,
    s: &TypedStatement,
    x: Value,
    y: Value,
) -> Result<Flow, Halt>
    requires { IsSoundStatement around.now.at frame.old.items s.now }
    ensures step { Does (flow_seen frame.new.items)
        (after_two (world_seen around.now.world.now) (place_seen around.now.at) (typed_statement s.now) (value_seen x) (value_seen y)
        (frame_seen frame.old.items))
        (stage_seen stage.old) result (stage_seen stage.new) }
    ensures slots { length frame.new.items ≡ length frame.old.items }
    ensures spends { stage.new.left ≤ stage.old.left }
{
    match s {
        TypedStatement::Fill(line, slot, _, _) => {
            let element = wanted(
                around.alloc,
                stage,
                slot_is_private(&around.at.here, *slot),
                y,
            )?;
            let array = filled(around.alloc, stage, *line, &x, &element)?;
            put(frame, *slot, array);
            Ok(Flow::Goes)
        }
        TypedStatement::StoreElement(line, slot, _, _) => {
            let element = wanted(
                around.alloc,
                stage,
                slot_is_private(&around.at.here, *slot),
                y,
            )?;
            let place = ArrayPlace {
                line: *line,
                slot: *slot,
            };
            set_element(around.alloc, stage, frame, place, &x, &element)
        }
        _ => Ok(Flow::Goes),
    }
}
