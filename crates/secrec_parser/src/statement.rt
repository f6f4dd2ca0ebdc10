// Statements.

ghost use Rattle.std.specs.Prelude.{◌≡◌, ◌+◌, ◌-◌, ◌≤◌, true, length, map};
ghost use Rattle.program_trees.specs.Statements.{statement};
ghost use Rattle.secrec_parser.specs.inner.Steps.{braced, do_step, for_step, if_step, least, led, statement_at_most, while_step};
ghost use Rattle.secrec_parser.specs.inner.Given.{Takes};

use crate::declaration::parenthesised;
use crate::leader::{Leader, leader_of};
use crate::simple::{
    action_statement, declaration_statement, do_test, for_heading, name_statement, short_statement,
};
use crate::tokens::at_sign;
use expression_parser::{ParseProblem, Read, Stopped, boxed, closed, expect};
use program_trees::Statement;
use sc_text::Span;
use secrec_lexer::{Sign, Token};
use std::alloc::Global;

/// A statement of at most this height, inside a loop or not.
#[cycle(statements)]
fn statement<'a>(
    alloc: Global,
    tokens: &'a [Token],
    max_height: u8,
    in_loop: bool,
) -> Read<'a, Statement>
    ensures { Takes (λ x. (statement x.0, x.1.now)) result (statement_at_most max_height in_loop tokens.now) (length tokens.now) }
{
    let Some((token, rest)) = tokens.split_first() else {
        return Err(Stopped::At(ParseProblem::Unexpected, tokens));
    };
    let leader = leader_of(token, in_loop);
    if max_height < leader.least_height() {
        return Err(Stopped::At(ParseProblem::TooHigh, tokens));
    }
    match leader {
        Leader::Declaration => declaration_statement(alloc, tokens, max_height - 1),
        Leader::Name => name_statement(alloc, tokens, rest, max_height),
        Leader::Expression => action_statement(alloc, tokens, max_height),
        _ => led(alloc, leader, token.place, rest, max_height, in_loop),
    }
}

/// A statement that a keyword, a brace or a semicolon led, which stands before the tokens.
#[cycle(statements)]
#[tactic(auto, unfolding(crate::specs::inner::Steps::led))]
fn led<'a>(
    alloc: Global,
    leader: Leader,
    place: Span,
    tokens: &'a [Token],
    max_height: u8,
    in_loop: bool,
) -> Read<'a, Statement>
    requires { least leader ≤ max_height }
    ensures { Takes (λ x. (statement x.0, x.1.now)) result (led leader max_height (statement_at_most (max_height - 1)) in_loop place tokens.now)
        (length tokens.now + 1) }
{
    match leader {
        Leader::Block => {
            let (statements, rest) = braced(alloc, tokens, max_height - 1, in_loop)?;
            Ok((Statement::Block(place, statements), rest))
        }
        Leader::If => if_statement(alloc, place, tokens, max_height - 1, in_loop),
        Leader::While => while_statement(alloc, place, tokens, max_height - 1),
        Leader::DoWhile => do_statement(alloc, place, tokens, max_height - 1),
        Leader::For => for_statement(alloc, place, tokens, max_height - 1),
        _ => short_statement(alloc, leader, place, tokens, max_height),
    }
}

/// Statements up to a closing brace, which is taken too.
#[cycle(statements)]
pub fn braced<'a>(
    alloc: Global,
    tokens: &'a [Token],
    max_height: u8,
    in_loop: bool,
) -> Read<'a, Vec<Statement>>
    ensures { Takes (λ x. (map statement x.0.items, x.1.now)) result (braced (statement_at_most max_height in_loop) tokens.now) (length tokens.now) }
{
    let mut found = Vec::new(alloc);
    let mut rest = tokens;
    while !at_sign(Sign::RightBrace, rest) {
        let (next, behind) = statement(alloc, rest, max_height, in_loop)?;
        found.push(next)?;
        rest = behind;
    }
    closed(found, expect(Sign::RightBrace, rest))
}

#[cycle(statements)]
#[tactic(auto, unfolding(crate::specs::inner::Steps::if_step))]
fn if_statement<'a>(
    alloc: Global,
    place: Span,
    tokens: &'a [Token],
    max_height: u8,
    in_loop: bool,
) -> Read<'a, Statement>
    ensures { Takes (λ x. (statement x.0, x.1.now)) result (if_step max_height (statement_at_most max_height in_loop) place tokens.now) (length tokens.now) }
{
    let (test, rest) = parenthesised(alloc, tokens, max_height)?;
    let first = statement(alloc, rest, max_height, in_loop);
    let (body, rest) = boxed(alloc, first)?;
    if !at_sign(Sign::Else, rest) {
        return Ok((Statement::If(place, test, body, None), rest));
    }
    let (_, rest) = expect(Sign::Else, rest)?;
    let second = statement(alloc, rest, max_height, in_loop);
    let (other, rest) = boxed(alloc, second)?;
    Ok((Statement::If(place, test, body, Some(other)), rest))
}

#[cycle(statements)]
#[tactic(auto, unfolding(crate::specs::inner::Steps::while_step))]
fn while_statement<'a>(
    alloc: Global,
    place: Span,
    tokens: &'a [Token],
    max_height: u8,
) -> Read<'a, Statement>
    ensures { Takes (λ x. (statement x.0, x.1.now)) result (while_step max_height (statement_at_most max_height true) place tokens.now) (length tokens.now) }
{
    let (test, rest) = parenthesised(alloc, tokens, max_height)?;
    let body = statement(alloc, rest, max_height, true);
    let (body, rest) = boxed(alloc, body)?;
    Ok((Statement::While(place, test, body), rest))
}

#[cycle(statements)]
#[tactic(auto, unfolding(crate::specs::inner::Steps::do_step))]
fn do_statement<'a>(
    alloc: Global,
    place: Span,
    tokens: &'a [Token],
    max_height: u8,
) -> Read<'a, Statement>
    ensures { Takes (λ x. (statement x.0, x.1.now)) result (do_step max_height (statement_at_most max_height true) place tokens.now) (length tokens.now) }
{
    let body = statement(alloc, tokens, max_height, true);
    let (body, rest) = boxed(alloc, body)?;
    do_test(alloc, place, body, rest, max_height)
}

#[cycle(statements)]
#[tactic(auto, unfolding(crate::specs::inner::Steps::for_step))]
fn for_statement<'a>(
    alloc: Global,
    place: Span,
    tokens: &'a [Token],
    max_height: u8,
) -> Read<'a, Statement>
    requires { 1 ≤ max_height }
    ensures { Takes (λ x. (statement x.0, x.1.now)) result (for_step max_height (statement_at_most max_height true) place tokens.now) (length tokens.now) }
{
    let (heading, rest) = for_heading(alloc, tokens, max_height)?;
    let body = statement(alloc, rest, max_height, true);
    let (body, rest) = boxed(alloc, body)?;
    Ok((heading.into_statement(place, body), rest))
}
