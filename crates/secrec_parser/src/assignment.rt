// Assignments, and what may be one or an expression.

ghost use Rattle.std.specs.Prelude.{◌≡◌, ◌+◌, ◌<◌, ◌≤◌, length, IfOk};
ghost use Rattle.program_trees.specs.Tree.{expression};
ghost use Rattle.program_trees.specs.Statements.{assignment_tree, optional, statement, step_tree, target_tree};
ghost use Rattle.program_trees.specs.Heights.{height, optional_height, target_height};
ghost use Rattle.secrec_parser.specs.Sugar.{held, updated};
ghost use Rattle.secrec_parser.specs.inner.Steps.{action, assigned, assignment_step, is_update, least_height, statement_of, step_of, target_index};
ghost use Rattle.secrec_parser.specs.inner.Steps.{update_of, value_by};
ghost use Rattle.secrec_parser.specs.inner.Given.{action_tree, Takes};

use crate::declaration::operand;
use crate::tokens::at_sign;
use expression_parser::{ParseProblem, Read, Stopped, expect, expression, identifier};
use program_trees::{Assignment, Expression, ForStep, Operator, Statement, Target};
use secrec_lexer::{Sign, Token};
use std::alloc::{AllocError, Global};

/// What an assignment does to its target.
#[derive(Clone, Copy)]
pub enum Update {
    /// `=`
    Plain,
    /// An operator and `=`.
    Compound(Operator),
    /// `++` or `--`.
    Step(Operator),
}

/// An assignment or an expression.
pub enum Action {
    Assignment(Assignment),
    Expression(Expression),
}

// Written out, so that an early exit calls it.
impl Drop for Action {
    fn drop(self) {
        match self {
            Action::Assignment(_) | Action::Expression(_) => {}
        }
    }
}

impl Action {
    /// The same as a statement.
    pub fn into_statement(self) -> Statement
        ensures { statement result ≡ statement_of (action_tree self) }
    {
        match self {
            Action::Assignment(found) => Statement::Assignment(found),
            Action::Expression(found) => Statement::Expression(found),
        }
    }

    /// The same as the third part of a `for`.
    pub fn into_step(self) -> ForStep
        ensures { step_tree result ≡ step_of (action_tree self) }
    {
        match self {
            Action::Assignment(found) => ForStep::Assignment(found),
            Action::Expression(found) => ForStep::Expression(found),
        }
    }
}

/// What a token does to a target, if it assigns.
pub fn update_of(token: &Token) -> Option<Update>
    ensures { result ≡ update_of token.now }
{
    if token.is(Sign::Assign) {
        Some(Update::Plain)
    } else if token.is(Sign::PlusAssign) {
        Some(Update::Compound(Operator::Add))
    } else if token.is(Sign::MinusAssign) {
        Some(Update::Compound(Operator::Subtract))
    } else if token.is(Sign::StarAssign) {
        Some(Update::Compound(Operator::Multiply))
    } else if token.is(Sign::AmpersandAssign) {
        Some(Update::Compound(Operator::And))
    } else if token.is(Sign::BarAssign) {
        Some(Update::Compound(Operator::Or))
    } else if token.is(Sign::CaretAssign) {
        Some(Update::Compound(Operator::Xor))
    } else if token.is(Sign::Increment) {
        Some(Update::Step(Operator::Add))
    } else if token.is(Sign::Decrement) {
        Some(Update::Step(Operator::Subtract))
    } else {
        None
    }
}

/// Whether the next token assigns.
pub fn is_update(tokens: &[Token]) -> bool
    ensures { result ≡ is_update tokens.now }
{
    match tokens.split_first() {
        Some((token, _)) => update_of(token).is_some(),
        None => false,
    }
}

impl Update {
    /// How high the tree of such an assignment is at least, to a target of this height.
    fn least_height(self, target: u8) -> u16
        ensures { result ≡ least_height target self }
    {
        match self {
            Update::Plain => u16::from(target) + 1,
            Update::Compound(_) | Update::Step(_) => u16::from(target) + 2,
        }
    }
}

/// A target as an expression.
fn held(alloc: Global, target: &Target) -> Result<Expression, AllocError>
    ensures { IfOk result (λ e. expression e ≡ held (target_tree target.now)) }
{
    let place = target.variable.place;
    let variable = Expression::Variable(place, target.variable.text.copy(alloc)?);
    match &target.index {
        None => Ok(variable),
        Some(index) => {
            let index = index.copy(alloc)?;
            Ok(Expression::Index(place, Box::new(alloc, variable)?, Box::new(alloc, index)?))
        }
    }
}

/// The operator between what a target holds and this operand.
fn updated(
    alloc: Global,
    target: &Target,
    operator: Operator,
    right: Expression,
) -> Result<Expression, AllocError>
    ensures { IfOk result (λ e. expression e ≡ updated (target_tree target.now) operator (expression right)) }
{
    let left = held(alloc, target)?;
    let place = target.variable.place;
    Ok(Expression::Binary(
        place,
        operator,
        Box::new(alloc, left)?,
        Box::new(alloc, right)?,
    ))
}

fn value_by<'a>(
    alloc: Global,
    target: &Target,
    update: Update,
    tokens: &'a [Token],
    max_height: u8,
) -> Read<'a, Expression>
    requires { 2 ≤ max_height }
    ensures { Takes (λ x. (expression x.0, x.1.now)) result (value_by max_height (target_tree target.now) update tokens.now) (length tokens.now + 1) }
{
    match update {
        Update::Plain => operand(alloc, tokens, max_height - 1),
        Update::Compound(operator) => {
            let (right, rest) = operand(alloc, tokens, max_height - 2)?;
            Ok((updated(alloc, target, operator, right)?, rest))
        }
        Update::Step(operator) => {
            let one = Expression::Number(target.variable.place, 1);
            Ok((updated(alloc, target, operator, one)?, tokens))
        }
    }
}

/// What a target of this height gets, in an assignment of at most this height.
fn assigned<'a>(
    alloc: Global,
    target: Target,
    height: u8,
    tokens: &'a [Token],
    max_height: u8,
) -> Read<'a, Assignment>
    requires { height ≡ target_height (target_tree target) }
    ensures { Takes (λ x. (assignment_tree x.0, x.1.now)) result (assigned max_height (target_tree target) tokens.now) (length tokens.now) }
{
    let Some((token, rest)) = tokens.split_first() else {
        return Err(Stopped::At(ParseProblem::Unexpected, tokens));
    };
    let Some(update) = update_of(token) else {
        return Err(Stopped::At(ParseProblem::Unexpected, tokens));
    };
    if u16::from(max_height) < update.least_height(height) {
        return Err(Stopped::At(ParseProblem::TooHigh, tokens));
    }
    let (value, rest) = value_by(alloc, &target, update, rest, max_height)?;
    Ok((Assignment { target, value }, rest))
}

/// The index of a target if there is one, and its height, in an assignment of at most this height.
fn target_index<'a>(
    alloc: Global,
    tokens: &'a [Token],
    max_height: u8,
) -> Read<'a, (Option<Expression>, u8)>
    ensures step { Takes (λ x. (optional x.0.0, x.1.now)) result (target_index max_height tokens.now) (length tokens.now + 1) }
    ensures height { IfOk result (λ x. (x.0.1 ≡ optional_height (optional x.0.0)) × (x.0.1 < 255)) }
{
    if !at_sign(Sign::LeftBracket, tokens) {
        return Ok(((None, 0), tokens));
    }
    if max_height < 3 {
        return Err(Stopped::At(ParseProblem::TooHigh, tokens));
    }
    let (_, rest) = expect(Sign::LeftBracket, tokens)?;
    let (parsed, rest) = expression(alloc, rest, max_height - 2)?;
    let (_, rest) = expect(Sign::RightBracket, rest)?;
    Ok(((Some(parsed.tree), parsed.height), rest))
}

/// An assignment of at most this height.
#[tactic(auto, unfolding(crate::specs::inner::Steps::assignment_step))]
pub fn assignment<'a>(alloc: Global, tokens: &'a [Token], max_height: u8) -> Read<'a, Assignment>
    ensures { Takes (λ x. (assignment_tree x.0, x.1.now)) result (assignment_step max_height tokens.now) (length tokens.now) }
{
    let (variable, rest) = identifier(alloc, tokens)?;
    let ((index, height), rest) = target_index(alloc, rest, max_height)?;
    assigned(
        alloc,
        Target { variable, index },
        height + 1,
        rest,
        max_height,
    )
}

/// An expression of at most the first height, or an assignment of at most the second.
#[tactic(auto, unfolding(crate::specs::inner::Steps::action))]
pub fn assignment_or_expression<'a>(
    alloc: Global,
    tokens: &'a [Token],
    expression_height: u8,
    max_height: u8,
) -> Read<'a, Action>
    ensures { Takes (λ x. (action_tree x.0, x.1.now)) result (action expression_height max_height tokens.now) (length tokens.now) }
{
    let (parsed, rest) = expression(alloc, tokens, expression_height)?;
    if !is_update(rest) {
        return Ok((Action::Expression(parsed.tree), rest));
    }
    let height = parsed.height;
    let Some(target) = parsed.tree.into_target() else {
        return Err(Stopped::At(ParseProblem::Unexpected, rest));
    };
    let (assignment, rest) = assigned(alloc, target, height, rest, max_height)?;
    Ok((Action::Assignment(assignment), rest))
}
