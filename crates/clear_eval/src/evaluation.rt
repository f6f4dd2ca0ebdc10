// The evaluation of expressions, statements and calls. They call one another, so they stand together. Each kind of expression and of
// statement is a function of its own, kept out of its caller by hand, so that a deep tree takes little stack.
ghost use Rattle.std.specs.Prelude.{◌≡◌, ◌≤◌, ◌<◌, IfOk, map, length};
ghost use Rattle.program_trees.specs.TypedTree.{cat_node, call_node, cut_node, typed_tree, typed_trees_of};
ghost use Rattle.program_trees.specs.TypedStatements.{typed_statement};
ghost use Rattle.program_trees.specs.TypedPrograms.{typed_function_tree};
ghost use Rattle.reached_instances.specs.Views.{setting};
ghost use Rattle.language_model.specs.Evaluation.{arguments, not_cut_short, cut_short, gives_private};
ghost use Rattle.value_steps.specs.Steps.{Does, itself};
ghost use Rattle.value_steps.specs.Views.{value_seen, stage_seen, world_seen};
ghost use Rattle.clear_eval.specs.inner.Parts.{HasOne, HasTwo, HasOneWithin, HasTwoWithin};
ghost use Rattle.clear_eval.specs.inner.Standing.{node_at, evaluation_at, wanted_at, test_at, flow_at, flow_of_all, branch_at, turns_at, repeats_at, body_at};
ghost use Rattle.clear_eval.specs.inner.Standing.{HasRoomFor, AreSoundAmong, IsSoundAround, IsSoundNode, IsSoundIn, AreSoundIn, IsSoundStatement};
ghost use Rattle.clear_eval.specs.inner.Standing.{AreSoundStatements};
ghost use Rattle.clear_eval.specs.inner.Views.{frame_seen, flow_seen, held_seen, values_seen, calls_from};

use crate::beginning::{Begun, Callee, begin};
use crate::calling::{add_argument, bound_by, charge_call, slots_of};
use crate::flow::Flow;
use crate::held::Held;
use crate::parts::{Joined, Parts, StatementParts, parts_of, statement_parts_of};
use crate::place::Around;
use crate::slots::slot_value;
use crate::steps::{decided, leaf, on_one, on_two, plain, with_one, with_two};
use crate::words::decides;
use program_trees::{
    BinaryOperator, Connective, Operands, Operation, Slot, TypedExpression, TypedStatement,
};
use reached_instances::{BoundDomain, domain, next_is_private};
use std::alloc::Global;
use value_steps::{Halt, Stage, Value, World, concatenated, operation, tested, wanted};

/// Evaluates an expression.
#[inline(never)]
#[cycle(evaluation)]
fn value(
    around: &Around<'_, '_>,
    stage: &mut Stage<'_>,
    frame: &Vec<Value>,
    e: &TypedExpression,
) -> Result<Value, Halt>
    requires program { IsSoundAround around.now.at }
    requires here { IsSoundIn around.now.at frame.now.items e.now }
    ensures step { Does value_seen (evaluation_at around.now frame.now.items e.now) (stage_seen stage.old) result (stage_seen stage.new) }
    ensures spends { stage.new.left ≤ stage.old.left }
{
    match parts_of(e) {
        Parts::Leaf => leaf(around, stage, frame, e),
        Parts::One(x) => on_value(around, stage, frame, e, x),
        Parts::Two(x, y) => on_values(around, stage, frame, e, x, y),
        Parts::Joined(arrays) => on_arrays(around, stage, frame, e, arrays),
        Parts::Call(line, number, list) => call(around, stage, frame, line, number, list),
        Parts::Connected(connective, x, y) => connected(around, stage, frame, connective, x, y),
    }
}

/// Evaluates an operand that is only read: a variable is lent.
#[tactic(auto, unfolding(language_model::specs::Evaluation::value))]
#[inline(never)]
#[cycle(evaluation)]
fn operand<'f>(
    around: &Around<'_, '_>,
    stage: &mut Stage<'_>,
    frame: &'f Vec<Value>,
    e: &TypedExpression,
) -> Result<Held<'f>, Halt>
    requires program { IsSoundAround around.now.at }
    requires here { IsSoundIn around.now.at frame.now.items e.now }
    ensures step { Does held_seen (evaluation_at around.now frame.now.items e.now) (stage_seen stage.old) result (stage_seen stage.new) }
    ensures spends { stage.new.left ≤ stage.old.left }
{
    if let TypedExpression::Variable(slot) = e {
        return Ok(Held::Lent(slot_value(frame, *slot)));
    }
    let value = value(around, stage, frame, e)?;
    Ok(Held::Own(value))
}

/// Evaluates an expression with one operand.
#[inline(never)]
#[cycle(evaluation)]
fn on_value(
    around: &Around<'_, '_>,
    stage: &mut Stage<'_>,
    frame: &Vec<Value>,
    e: &TypedExpression,
    x: &TypedExpression,
) -> Result<Value, Halt>
    requires program { IsSoundAround around.now.at }
    requires parts { HasOne (typed_tree e.now) (typed_tree x.now) }
    requires here { IsSoundIn around.now.at frame.now.items x.now }
    ensures step { Does value_seen (evaluation_at around.now frame.now.items e.now) (stage_seen stage.old) result (stage_seen stage.new) }
    ensures spends { stage.new.left ≤ stage.old.left }
{
    let x = operand(around, stage, frame, x)?;
    on_one(around.alloc, around.world, stage, e, x)
}

/// Evaluates an expression with two operands, the left one first.
#[inline(never)]
#[cycle(evaluation)]
fn on_values(
    around: &Around<'_, '_>,
    stage: &mut Stage<'_>,
    frame: &Vec<Value>,
    e: &TypedExpression,
    x: &TypedExpression,
    y: &TypedExpression,
) -> Result<Value, Halt>
    requires program { IsSoundAround around.now.at }
    requires parts { HasTwo (typed_tree e.now) (typed_tree x.now) (typed_tree y.now) }
    requires left { IsSoundIn around.now.at frame.now.items x.now }
    requires right { IsSoundIn around.now.at frame.now.items y.now }
    ensures step { Does value_seen (evaluation_at around.now frame.now.items e.now) (stage_seen stage.old) result (stage_seen stage.new) }
    ensures spends { stage.new.left ≤ stage.old.left }
{
    let x = operand(around, stage, frame, x)?;
    let y = operand(around, stage, frame, y)?;
    on_two(around.alloc, around.world, stage, e, x, y)
}

/// Evaluates an expression whose value is wanted as a private one, or as it is.
#[inline(never)]
#[cycle(evaluation)]
fn value_wanted(
    around: &Around<'_, '_>,
    stage: &mut Stage<'_>,
    frame: &Vec<Value>,
    private: bool,
    e: &TypedExpression,
) -> Result<Value, Halt>
    requires program { IsSoundAround around.now.at }
    requires here { IsSoundIn around.now.at frame.now.items e.now }
    ensures step { Does value_seen (wanted_at around.now frame.now.items private e.now) (stage_seen stage.old) result (stage_seen stage.new) }
    ensures spends { stage.new.left ≤ stage.old.left }
{
    let value = value(around, stage, frame, e)?;
    wanted(around.alloc, stage, private, value)
}

/// Evaluates an expression that joins two arrays, each classified right after its evaluation.
#[tactic(auto, unfolding(language_model::specs::Evaluation::value))]
#[inline(never)]
#[cycle(evaluation)]
fn on_arrays(
    around: &Around<'_, '_>,
    stage: &mut Stage<'_>,
    frame: &Vec<Value>,
    e: &TypedExpression,
    arrays: Joined<'_>,
) -> Result<Value, Halt>
    requires program { IsSoundAround around.now.at }
    requires parts { typed_tree e.now ≡ cat_node arrays.line (typed_tree arrays.left.now) (typed_tree arrays.right.now) }
    requires left { IsSoundIn around.now.at frame.now.items arrays.left.now }
    requires right { IsSoundIn around.now.at frame.now.items arrays.right.now }
    ensures step { Does value_seen (evaluation_at around.now frame.now.items e.now) (stage_seen stage.old) result (stage_seen stage.new) }
    ensures spends { stage.new.left ≤ stage.old.left }
{
    let private = domain(around.alloc, &around.at.here, e)?.is_private();
    let x = value_wanted(around, stage, frame, private, arrays.left)?;
    let y = value_wanted(around, stage, frame, private, arrays.right)?;
    concatenated(around.alloc, stage, arrays.line, x, &y)
}

/// Evaluates operands of a connective, the right one only where the left one doesn't decide, or is private.
#[tactic(auto, unfolding(language_model::specs::Evaluation::value))]
#[inline(never)]
#[cycle(evaluation)]
fn connected(
    around: &Around<'_, '_>,
    stage: &mut Stage<'_>,
    frame: &Vec<Value>,
    connective: Connective,
    x: &TypedExpression,
    y: &TypedExpression,
) -> Result<Value, Halt>
    requires program { IsSoundAround around.now.at }
    requires left { IsSoundIn around.now.at frame.now.items x.now }
    requires right { IsSoundIn around.now.at frame.now.items y.now }
    ensures step { Does value_seen (node_at around.now frame.now.items (cut_node connective (typed_tree x.now) (typed_tree y.now)))
        (stage_seen stage.old) result (stage_seen stage.new) }
    ensures spends { stage.new.left ≤ stage.old.left }
{
    let private = domain(around.alloc, &around.at.here, x)?.is_private();
    let x = value(around, stage, frame, x)?;
    if private {
        not_cut_short(around, stage, frame, connective, x, y)
    } else {
        cut_short(around, stage, frame, connective, x, y)
    }
}

/// Goes on after a private left operand of a connective.
#[inline(never)]
#[cycle(evaluation)]
fn not_cut_short(
    around: &Around<'_, '_>,
    stage: &mut Stage<'_>,
    frame: &Vec<Value>,
    connective: Connective,
    left: Value,
    right: &TypedExpression,
) -> Result<Value, Halt>
    requires program { IsSoundAround around.now.at }
    requires here { IsSoundIn around.now.at frame.now.items right.now }
    ensures step { Does value_seen
        (not_cut_short (world_seen around.now.world.now) connective (value_seen left) (evaluation_at around.now frame.now.items right.now))
        (stage_seen stage.old) result (stage_seen stage.new) }
    ensures spends { stage.new.left ≤ stage.old.left }
{
    let right = value(around, stage, frame, right)?;
    let step = Operation {
        line: 0,
        operator: BinaryOperator::Bools(connective.operator()),
        operands: Operands::Scalars,
    };
    operation(around.alloc, around.world, stage, step, left, right)
}

/// Goes on after a public left operand of a connective.
#[inline(never)]
#[cycle(evaluation)]
fn cut_short(
    around: &Around<'_, '_>,
    stage: &mut Stage<'_>,
    frame: &Vec<Value>,
    connective: Connective,
    left: Value,
    right: &TypedExpression,
) -> Result<Value, Halt>
    requires program { IsSoundAround around.now.at }
    requires here { IsSoundIn around.now.at frame.now.items right.now }
    ensures step { Does value_seen (cut_short connective (gives_private (setting around.now.at.here) (typed_tree right.now)) (value_seen left)
        (evaluation_at around.now frame.now.items right.now))
        (stage_seen stage.old) result (stage_seen stage.new) }
    ensures spends { stage.new.left ≤ stage.old.left }
{
    let truth = tested(stage, &left)?;
    if decides(connective, truth) {
        decided(around.alloc, &around.at, stage, truth, right)
    } else {
        value(around, stage, frame, right)
    }
}

/// Evaluates the arguments of a call, from the left, each classified where the parameter is private.
#[tactic(auto, unfolding(language_model::specs::Evaluation::value))]
#[inline(never)]
#[cycle(evaluation)]
fn arguments(
    around: &Around<'_, '_>,
    stage: &mut Stage<'_>,
    frame: &Vec<Value>,
    binding: &[BoundDomain],
    slots: &[Slot],
    list: &Vec<TypedExpression>,
) -> Result<Vec<Value>, Halt>
    requires program { IsSoundAround around.now.at }
    requires here { AreSoundIn around.now.at frame.now.items list.now.items }
    ensures step { Does values_seen (arguments (world_seen around.now.world.now) (calls_from around.now) (setting around.now.at.here)
        binding.now slots.now (typed_trees_of (map typed_tree list.now.items)) (frame_seen frame.now.items))
        (stage_seen stage.old) result (stage_seen stage.new) }
    ensures each { IfOk result (λ values. length values.items ≡ length list.now.items) }
    ensures spends { stage.new.left ≤ stage.old.left }
{
    let mut values = Vec::new(around.alloc);
    for e in list {
        let value = value(around, stage, frame, e)?;
        let private = next_is_private(binding, slots, values.len());
        let argument = wanted(around.alloc, stage, private, value)?;
        add_argument(&mut values, argument)?;
    }
    Ok(values)
}

/// Evaluates a call: its arguments first.
#[tactic(auto, unfolding(language_model::specs::Evaluation::value))]
#[inline(never)]
#[cycle(evaluation)]
fn call(
    around: &Around<'_, '_>,
    stage: &mut Stage<'_>,
    frame: &Vec<Value>,
    line: u32,
    number: usize,
    list: &Vec<TypedExpression>,
) -> Result<Value, Halt>
    requires program { IsSoundAround around.now.at }
    requires here { IsSoundNode around.now.at frame.now.items (call_node line number (typed_trees_of (map typed_tree list.now.items))) }
    ensures step { Does value_seen (node_at around.now frame.now.items (call_node line number (typed_trees_of (map typed_tree list.now.items))))
        (stage_seen stage.old) result (stage_seen stage.new) }
    ensures spends { stage.new.left ≤ stage.old.left }
{
    let binding = bound_by(around.alloc, &around.at, number, list)?;
    let slots = slots_of(&around.at, number);
    let arguments = arguments(around, stage, frame, &binding, slots, list)?;
    called(around, stage, line, number, &binding, arguments)
}

/// Calls a function, where there is room for so many calls inside one another.
#[inline(never)]
#[cycle(evaluation)]
fn called(
    around: &Around<'_, '_>,
    stage: &mut Stage<'_>,
    line: u32,
    number: usize,
    binding: &[BoundDomain],
    arguments: Vec<Value>,
) -> Result<Value, Halt>
    requires program { IsSoundAround around.now.at }
    requires fitting { HasRoomFor around.now.at.here.functions.now number (length arguments.items) }
    ensures step { Does value_seen (calls_from around.now line number binding.now (map value_seen arguments.items))
        (stage_seen stage.old) result (stage_seen stage.new) }
    ensures spends { stage.new.left ≤ stage.old.left }
{
    charge_call(stage, around.at.depth, line, &arguments)?;
    let callee = Callee {
        functions: around.at.here.functions,
        depth: around.at.depth - 1,
        number,
        binding,
    };
    body(around.alloc, around.world, stage, &callee, arguments)
}

/// Runs the body of a function, with its arguments in its first slots.
#[inline(never)]
#[cycle(evaluation)]
pub fn body<'w>(
    alloc: Global,
    world: &'w World<'w>,
    stage: &mut Stage<'_>,
    callee: &Callee<'_, '_>,
    arguments: Vec<Value>,
) -> Result<Value, Halt>
    requires program { AreSoundAmong (map typed_function_tree callee.now.functions.now) }
    requires fitting { HasRoomFor callee.now.functions.now callee.now.number (length arguments.items) }
    ensures step { Does value_seen
        (body_at world.now callee.now.functions.now callee.now.depth callee.now.number callee.now.binding.now (map value_seen arguments.items))
        (stage_seen stage.old) result (stage_seen stage.new) }
    ensures spends { stage.new.left ≤ stage.old.left }
{
    let Begun {
        at,
        mut frame,
        body,
    } = begin(alloc, callee, arguments)?;
    let around = Around { alloc, world, at };
    let flow = statements(&around, stage, &mut frame, body)?;
    Ok(flow.into_result(alloc)?)
}

/// Executes a statement.
#[tactic(auto, unfolding(language_model::specs::Evaluation::execute))]
#[inline(never)]
#[cycle(evaluation)]
fn statement(
    around: &Around<'_, '_>,
    stage: &mut Stage<'_>,
    frame: &mut Vec<Value>,
    s: &TypedStatement,
) -> Result<Flow, Halt>
    requires program { IsSoundAround around.now.at }
    requires here { IsSoundStatement around.now.at frame.old.items s.now }
    ensures step { Does (flow_seen frame.new.items) (flow_at around.now frame.old.items s.now) (stage_seen stage.old) result (stage_seen stage.new) }
    ensures slots { length frame.new.items ≡ length frame.old.items }
    ensures spends { stage.new.left ≤ stage.old.left }
{
    match statement_parts_of(s) {
        StatementParts::Plain => plain(around, stage, frame, s),
        StatementParts::One(x) => one_within(around, stage, frame, s, x),
        StatementParts::Two(x, y) => two_within(around, stage, frame, s, x, y),
        StatementParts::Block(list) => statements(around, stage, frame, list),
        StatementParts::If(condition, first, second) => {
            branch(around, stage, frame, condition, first, second)
        }
        StatementParts::Loop(condition, step, body) => {
            turns(around, stage, frame, condition, step, body)
        }
        StatementParts::DoWhile(body, condition) => repeats(around, stage, frame, body, condition),
    }
}

/// Executes a statement with one expression.
#[inline(never)]
#[cycle(evaluation)]
fn one_within(
    around: &Around<'_, '_>,
    stage: &mut Stage<'_>,
    frame: &mut Vec<Value>,
    s: &TypedStatement,
    x: &TypedExpression,
) -> Result<Flow, Halt>
    requires program { IsSoundAround around.now.at }
    requires parts { HasOneWithin (typed_statement s.now) (typed_tree x.now) }
    requires here { IsSoundStatement around.now.at frame.old.items s.now }
    ensures step { Does (flow_seen frame.new.items) (flow_at around.now frame.old.items s.now) (stage_seen stage.old) result (stage_seen stage.new) }
    ensures slots { length frame.new.items ≡ length frame.old.items }
    ensures spends { stage.new.left ≤ stage.old.left }
{
    let x = value(around, stage, frame, x)?;
    with_one(around, stage, frame, s, x)
}

/// Executes a statement with two expressions, which are evaluated in this order.
#[inline(never)]
#[cycle(evaluation)]
fn two_within(
    around: &Around<'_, '_>,
    stage: &mut Stage<'_>,
    frame: &mut Vec<Value>,
    s: &TypedStatement,
    x: &TypedExpression,
    y: &TypedExpression,
) -> Result<Flow, Halt>
    requires program { IsSoundAround around.now.at }
    requires parts { HasTwoWithin (typed_statement s.now) (typed_tree x.now) (typed_tree y.now) }
    requires here { IsSoundStatement around.now.at frame.old.items s.now }
    ensures step { Does (flow_seen frame.new.items) (flow_at around.now frame.old.items s.now) (stage_seen stage.old) result (stage_seen stage.new) }
    ensures slots { length frame.new.items ≡ length frame.old.items }
    ensures spends { stage.new.left ≤ stage.old.left }
{
    let x = value(around, stage, frame, x)?;
    let y = value(around, stage, frame, y)?;
    with_two(around, stage, frame, s, x, y)
}

/// Evaluates a condition, and tells whether it is true.
#[inline(never)]
#[cycle(evaluation)]
fn holds(
    around: &Around<'_, '_>,
    stage: &mut Stage<'_>,
    frame: &Vec<Value>,
    condition: &TypedExpression,
) -> Result<bool, Halt>
    requires program { IsSoundAround around.now.at }
    requires here { IsSoundIn around.now.at frame.now.items condition.now }
    ensures step { Does itself (test_at around.now frame.now.items condition.now) (stage_seen stage.old) result (stage_seen stage.new) }
    ensures spends { IfOk result (λ _. stage.new.left < stage.old.left) }
    ensures keeps { stage.new.left ≤ stage.old.left }
{
    let value = value(around, stage, frame, condition)?;
    tested(stage, &value)
}

/// Executes the first statement where the condition is true, else the second.
#[inline(never)]
#[cycle(evaluation)]
fn branch(
    around: &Around<'_, '_>,
    stage: &mut Stage<'_>,
    frame: &mut Vec<Value>,
    condition: &TypedExpression,
    first: &TypedStatement,
    second: &TypedStatement,
) -> Result<Flow, Halt>
    requires program { IsSoundAround around.now.at }
    requires condition { IsSoundIn around.now.at frame.old.items condition.now }
    requires first { IsSoundStatement around.now.at frame.old.items first.now }
    requires second { IsSoundStatement around.now.at frame.old.items second.now }
    ensures step { Does (flow_seen frame.new.items) (branch_at around.now frame.old.items condition.now first.now second.now)
        (stage_seen stage.old) result (stage_seen stage.new) }
    ensures slots { length frame.new.items ≡ length frame.old.items }
    ensures spends { stage.new.left ≤ stage.old.left }
{
    if holds(around, stage, frame, condition)? {
        statement(around, stage, frame, first)
    } else {
        statement(around, stage, frame, second)
    }
}

/// Executes statements one after another.
#[tactic(auto, unfolding(language_model::specs::Evaluation::execute_all))]
#[inline(never)]
#[cycle(evaluation)]
fn statements(
    around: &Around<'_, '_>,
    stage: &mut Stage<'_>,
    frame: &mut Vec<Value>,
    list: &Vec<TypedStatement>,
) -> Result<Flow, Halt>
    requires program { IsSoundAround around.now.at }
    requires here { AreSoundStatements around.now.at frame.old.items list.now.items }
    ensures step { Does (flow_seen frame.new.items) (flow_of_all around.now frame.old.items list.now.items)
        (stage_seen stage.old) result (stage_seen stage.new) }
    ensures slots { length frame.new.items ≡ length frame.old.items }
    ensures spends { stage.new.left ≤ stage.old.left }
{
    for s in list {
        let flow = statement(around, stage, frame, s)?;
        match &flow {
            Flow::Goes => {}
            _ => return Ok(flow),
        }
    }
    Ok(Flow::Goes)
}

/// While the condition is true: the body, and then the step.
#[inline(never)]
#[cycle(evaluation)]
fn turns(
    around: &Around<'_, '_>,
    stage: &mut Stage<'_>,
    frame: &mut Vec<Value>,
    condition: &TypedExpression,
    step: &TypedStatement,
    body: &TypedStatement,
) -> Result<Flow, Halt>
    requires program { IsSoundAround around.now.at }
    requires condition { IsSoundIn around.now.at frame.old.items condition.now }
    requires step { IsSoundStatement around.now.at frame.old.items step.now }
    requires body { IsSoundStatement around.now.at frame.old.items body.now }
    ensures step { Does (flow_seen frame.new.items) (turns_at around.now frame.old.items condition.now step.now body.now)
        (stage_seen stage.old) result (stage_seen stage.new) }
    ensures slots { length frame.new.items ≡ length frame.old.items }
    ensures spends { stage.new.left ≤ stage.old.left }
{
    loop {
        let again = holds(around, stage, frame, condition)?;
        if !again {
            return Ok(Flow::Goes);
        }
        let flow = statement(around, stage, frame, body)?;
        match flow.behind_loop() {
            Some(flow) => return Ok(flow),
            None => {}
        }
        let flow = statement(around, stage, frame, step)?;
        match flow.behind_loop() {
            Some(flow) => return Ok(flow),
            None => {}
        }
    }
}

/// The body, again while the condition after it is true.
#[inline(never)]
#[cycle(evaluation)]
fn repeats(
    around: &Around<'_, '_>,
    stage: &mut Stage<'_>,
    frame: &mut Vec<Value>,
    body: &TypedStatement,
    condition: &TypedExpression,
) -> Result<Flow, Halt>
    requires program { IsSoundAround around.now.at }
    requires condition { IsSoundIn around.now.at frame.old.items condition.now }
    requires body { IsSoundStatement around.now.at frame.old.items body.now }
    ensures step { Does (flow_seen frame.new.items) (repeats_at around.now frame.old.items condition.now body.now)
        (stage_seen stage.old) result (stage_seen stage.new) }
    ensures slots { length frame.new.items ≡ length frame.old.items }
    ensures spends { stage.new.left ≤ stage.old.left }
{
    loop {
        let flow = statement(around, stage, frame, body)?;
        match flow.behind_loop() {
            Some(flow) => return Ok(flow),
            None => {}
        }
        let again = holds(around, stage, frame, condition)?;
        if !again {
            return Ok(Flow::Goes);
        }
    }
}
