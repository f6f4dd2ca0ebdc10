// Statements that hold no statement, and the heading of a `for`.

ghost use Rattle.std.specs.Prelude.{◌≡◌, ◌+◌, ◌<◌, ◌≤◌, length, Err};
ghost use Rattle.program_trees.specs.Statements.{optional, start_tree, statement, step_tree};
ghost use Rattle.secrec_parser.specs.inner.Steps.{action_statement, assert_step, declaration_statement, declares, do_behind, follows_name, headed};
ghost use Rattle.secrec_parser.specs.inner.Steps.{heading, last_part, last_step, least, name_statement, only_declares, return_step, short};
ghost use Rattle.secrec_parser.specs.inner.Steps.{start_part, start_step, test_part};
ghost use Rattle.secrec_parser.specs.inner.Given.{heading_parts, Takes};

use crate::assignment::{assignment, assignment_or_expression, update_of};
use crate::declaration::{declaration, operand, parenthesised};
use crate::leader::{Leader, is_type};
use crate::tokens::{at_sign, operator_of};
use expression_parser::{ParseProblem, Read, Stopped, closed, expect};
use program_trees::{Expression, ForStart, ForStep, Statement};
use sc_text::Span;
use secrec_lexer::{Sign, Token, TokenKind};
use std::alloc::Global;

/// Whether a declaration begins here: with a type, or with a name and the type of elements.
pub fn declares(tokens: &[Token]) -> bool
    ensures { result ≡ declares tokens.now }
{
    let Some((token, rest)) = tokens.split_first() else {
        return false;
    };
    token.is(Sign::Public) || is_type(token) || is_named_type(token, rest)
}

fn is_named_type(token: &Token, rest: &[Token]) -> bool
    ensures { result ≡ Rattle.secrec_parser.specs.inner.Steps.is_named_type token.now.kind rest.now }
{
    match token.kind {
        TokenKind::Name(_) => match rest.split_first() {
            Some((next, _)) => is_type(next),
            None => false,
        },
        _ => false,
    }
}

/// A declaration whose size and value are of at most this height, and its semicolon.
#[tactic(auto, unfolding(crate::specs::inner::Steps::declaration_statement))]
pub fn declaration_statement<'a>(
    alloc: Global,
    tokens: &'a [Token],
    max_height: u8,
) -> Read<'a, Statement>
    ensures { Takes (λ x. (statement x.0, x.1.now)) result (declaration_statement max_height tokens.now) (length tokens.now) }
{
    let (found, rest) = declaration(alloc, tokens, max_height)?;
    closed(Statement::Declaration(found), expect(Sign::Semicolon, rest))
}

/// An assignment or an expression, and its semicolon.
#[tactic(auto, unfolding(crate::specs::inner::Steps::action_statement))]
pub fn action_statement<'a>(
    alloc: Global,
    tokens: &'a [Token],
    max_height: u8,
) -> Read<'a, Statement>
    ensures { Takes (λ x. (statement x.0, x.1.now)) result (action_statement max_height tokens.now) (length tokens.now) }
{
    let (action, rest) = assignment_or_expression(
        alloc,
        tokens,
        max_height.saturating_sub(1),
        max_height,
    )?;
    closed(action.into_statement(), expect(Sign::Semicolon, rest))
}

/// Whether a token goes on with an assignment or an expression after a name.
fn follows_name(token: &Token) -> bool
    ensures { result ≡ follows_name token.now }
{
    token.is(Sign::LeftParenthesis)
        || token.is(Sign::LeftBracket)
        || token.is(Sign::Semicolon)
        || update_of(token).is_some()
        || operator_of(token).is_some()
}

/// What is wrong after a name where a declaration alone has room, and none stands.
fn fault_behind_name(tokens: &[Token]) -> ParseProblem
    ensures { only_declares tokens.now ≡ Err (result, tokens.now) }
{
    let Some((token, _)) = tokens.split_first() else {
        return ParseProblem::Unexpected;
    };
    if follows_name(token) {
        ParseProblem::TooHigh
    } else {
        ParseProblem::Unexpected
    }
}

/// A statement that begins with a name, after which the rest stands.
#[tactic(auto, unfolding(crate::specs::inner::Steps::name_statement))]
pub fn name_statement<'a>(
    alloc: Global,
    tokens: &'a [Token],
    rest: &'a [Token],
    max_height: u8,
) -> Read<'a, Statement>
    requires max_height { 1 ≤ max_height }
    requires rest { length rest.now < length tokens.now }
    ensures { Takes (λ x. (statement x.0, x.1.now)) result (name_statement max_height tokens.now rest.now) (length tokens.now) }
{
    if declares(tokens) {
        declaration_statement(alloc, tokens, max_height - 1)
    } else if max_height == 1 {
        Err(Stopped::At(fault_behind_name(rest), rest))
    } else {
        action_statement(alloc, tokens, max_height)
    }
}

/// An expression if there is one, and its semicolon.
#[tactic(auto, unfolding(crate::specs::inner::Steps::test_part))]
fn optional_part<'a>(
    alloc: Global,
    tokens: &'a [Token],
    max_height: u8,
) -> Read<'a, Option<Expression>>
    ensures { Takes (λ x. (optional x.0, x.1.now)) result (test_part max_height tokens.now) (length tokens.now) }
{
    if at_sign(Sign::Semicolon, tokens) {
        return closed(None, expect(Sign::Semicolon, tokens));
    }
    let (found, rest) = operand(alloc, tokens, max_height)?;
    closed(Some(found), expect(Sign::Semicolon, rest))
}

/// A statement that holds no statement and that a keyword or a semicolon led, which stands before the tokens.
#[tactic(auto, unfolding(crate::specs::inner::Steps::return_step, crate::specs::inner::Steps::assert_step))]
pub fn short_statement<'a>(
    alloc: Global,
    leader: Leader,
    place: Span,
    tokens: &'a [Token],
    max_height: u8,
) -> Read<'a, Statement>
    requires { least leader ≤ max_height }
    ensures { Takes (λ x. (statement x.0, x.1.now)) result (short leader max_height place tokens.now) (length tokens.now + 1) }
{
    match leader {
        Leader::Break => closed(Statement::Break(place), expect(Sign::Semicolon, tokens)),
        Leader::Continue => closed(Statement::Continue(place), expect(Sign::Semicolon, tokens)),
        Leader::Return => {
            let (value, rest) = optional_part(alloc, tokens, max_height - 1)?;
            Ok((Statement::Return(place, value), rest))
        }
        Leader::Assert => {
            let (test, rest) = parenthesised(alloc, tokens, max_height - 1)?;
            closed(
                Statement::Assert(place, test),
                expect(Sign::Semicolon, rest),
            )
        }
        _ => Ok((Statement::Empty(place), tokens)),
    }
}

/// The test of a `do` with this body, and the signs around it.
#[tactic(auto, unfolding(crate::specs::inner::Steps::do_behind))]
pub fn do_test<'a>(
    alloc: Global,
    place: Span,
    body: Box<Statement>,
    tokens: &'a [Token],
    max_height: u8,
) -> Read<'a, Statement>
    ensures { Takes (λ x. (statement x.0, x.1.now)) result (do_behind max_height place (statement body.value) tokens.now) (length tokens.now) }
{
    let (_, rest) = expect(Sign::While, tokens)?;
    let (test, rest) = parenthesised(alloc, rest, max_height)?;
    closed(
        Statement::DoWhile(place, body, test),
        expect(Sign::Semicolon, rest),
    )
}

/// The first part of a `for`, up to its semicolon.
#[tactic(auto, unfolding(crate::specs::inner::Steps::start_step))]
fn start<'a>(alloc: Global, tokens: &'a [Token], max_height: u8) -> Read<'a, ForStart>
    requires { 1 ≤ max_height }
    ensures { Takes (λ x. (start_tree x.0, x.1.now)) result (start_step max_height tokens.now) (length tokens.now + 1) }
{
    if at_sign(Sign::Semicolon, tokens) {
        Ok((ForStart::Nothing, tokens))
    } else if declares(tokens) {
        let (found, rest) = declaration(alloc, tokens, max_height - 1)?;
        Ok((ForStart::Declaration(found), rest))
    } else {
        let (found, rest) = assignment(alloc, tokens, max_height)?;
        Ok((ForStart::Assignment(found), rest))
    }
}

/// The third part of a `for`, up to its parenthesis.
#[tactic(auto, unfolding(crate::specs::inner::Steps::last_step))]
fn last<'a>(alloc: Global, tokens: &'a [Token], max_height: u8) -> Read<'a, ForStep>
    ensures { Takes (λ x. (step_tree x.0, x.1.now)) result (last_step max_height tokens.now) (length tokens.now + 1) }
{
    if at_sign(Sign::RightParenthesis, tokens) {
        return Ok((ForStep::Nothing, tokens));
    }
    let (action, rest) = assignment_or_expression(alloc, tokens, max_height, max_height)?;
    Ok((action.into_step(), rest))
}

/// The first part of a `for`, with the parenthesis before it and the semicolon after it.
#[tactic(auto, unfolding(crate::specs::inner::Steps::start_part))]
fn start_part<'a>(alloc: Global, tokens: &'a [Token], max_height: u8) -> Read<'a, ForStart>
    requires { 1 ≤ max_height }
    ensures { Takes (λ x. (start_tree x.0, x.1.now)) result (start_part max_height tokens.now) (length tokens.now) }
{
    let (_, rest) = expect(Sign::LeftParenthesis, tokens)?;
    let (found, rest) = start(alloc, rest, max_height)?;
    closed(found, expect(Sign::Semicolon, rest))
}

/// The third part of a `for`, with the parenthesis after it.
#[tactic(auto, unfolding(crate::specs::inner::Steps::last_part))]
fn last_part<'a>(alloc: Global, tokens: &'a [Token], max_height: u8) -> Read<'a, ForStep>
    ensures { Takes (λ x. (step_tree x.0, x.1.now)) result (last_part max_height tokens.now) (length tokens.now) }
{
    let (found, rest) = last(alloc, tokens, max_height)?;
    closed(found, expect(Sign::RightParenthesis, rest))
}

/// What stands in the parentheses of a `for`.
pub struct Heading {
    start: ForStart,
    test: Option<Expression>,
    step: ForStep,
}

// Written out, so that an early exit calls it.
impl Drop for Heading {
    fn drop(self) {
        match self {
            Heading {
                start: _,
                test: _,
                step: _,
            } => {}
        }
    }
}

impl Heading {
    /// The `for` at this place with this heading and body.
    pub fn into_statement(self, place: Span, body: Box<Statement>) -> Statement
        ensures { statement result ≡ headed place (heading_parts self) (statement body.value) }
    {
        let Heading { start, test, step } = self;
        Statement::For(place, start, test, step, body)
    }
}

/// The parentheses of a `for` and what stands in them.
#[tactic(auto, unfolding(crate::specs::inner::Steps::heading))]
pub fn for_heading<'a>(alloc: Global, tokens: &'a [Token], max_height: u8) -> Read<'a, Heading>
    requires { 1 ≤ max_height }
    ensures { Takes (λ x. (heading_parts x.0, x.1.now)) result (heading max_height tokens.now) (length tokens.now) }
{
    let (start, rest) = start_part(alloc, tokens, max_height)?;
    let (test, rest) = optional_part(alloc, rest, max_height)?;
    let (step, rest) = last_part(alloc, rest, max_height)?;
    Ok((Heading { start, test, step }, rest))
}
