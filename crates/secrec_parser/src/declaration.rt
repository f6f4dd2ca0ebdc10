// Expressions in their places, and declarations.

ghost use Rattle.std.specs.Prelude.{◌≡◌, ◌+◌, length};
ghost use Rattle.program_trees.specs.Tree.{expression};
ghost use Rattle.program_trees.specs.Statements.{optional, declaration_tree};
ghost use Rattle.secrec_parser.specs.inner.Steps.{declaration_step, initialiser, operand, parenthesised, size};
ghost use Rattle.secrec_parser.specs.inner.Given.{Takes};

use crate::tokens::at_sign;
use crate::types::declared_type;
use expression_parser::{ParseProblem, Read, Stopped, closed, expect, expression, identifier};
use program_trees::{Declaration, Expression};
use secrec_lexer::{Sign, Token};
use std::alloc::Global;

/// An expression of at most this height.
pub fn operand<'a>(alloc: Global, tokens: &'a [Token], max_height: u8) -> Read<'a, Expression>
    ensures { Takes (λ x. (expression x.0, x.1.now)) result (operand max_height tokens.now) (length tokens.now) }
{
    let (parsed, rest) = expression(alloc, tokens, max_height)?;
    Ok((parsed.tree, rest))
}

/// An expression in parentheses, without a node for them.
pub fn parenthesised<'a>(alloc: Global, tokens: &'a [Token], max_height: u8) -> Read<'a, Expression>
    ensures { Takes (λ x. (expression x.0, x.1.now)) result (parenthesised max_height tokens.now) (length tokens.now) }
{
    let (_, rest) = expect(Sign::LeftParenthesis, tokens)?;
    let (found, rest) = operand(alloc, rest, max_height)?;
    closed(found, expect(Sign::RightParenthesis, rest))
}

/// The size of an array that is declared, in parentheses, if there is one.
fn size<'a>(alloc: Global, tokens: &'a [Token], max_height: u8) -> Read<'a, Option<Expression>>
    ensures { Takes (λ x. (optional x.0, x.1.now)) result (size max_height tokens.now) (length tokens.now + 1) }
{
    if !at_sign(Sign::LeftParenthesis, tokens) {
        return Ok((None, tokens));
    }
    if max_height == 0 {
        return Err(Stopped::At(ParseProblem::TooHigh, tokens));
    }
    let (found, rest) = parenthesised(alloc, tokens, max_height)?;
    Ok((Some(found), rest))
}

/// The first value of a variable, if there is one.
fn initialiser<'a>(
    alloc: Global,
    tokens: &'a [Token],
    max_height: u8,
) -> Read<'a, Option<Expression>>
    ensures { Takes (λ x. (optional x.0, x.1.now)) result (initialiser max_height tokens.now) (length tokens.now + 1) }
{
    if !at_sign(Sign::Assign, tokens) {
        return Ok((None, tokens));
    }
    if max_height == 0 {
        return Err(Stopped::At(ParseProblem::TooHigh, tokens));
    }
    let (_, rest) = expect(Sign::Assign, tokens)?;
    let (found, rest) = operand(alloc, rest, max_height)?;
    Ok((Some(found), rest))
}

/// A declaration whose size and value are of at most this height.
#[tactic(auto, unfolding(crate::specs::inner::Steps::declaration_step))]
pub fn declaration<'a>(alloc: Global, tokens: &'a [Token], max_height: u8) -> Read<'a, Declaration>
    ensures { Takes (λ x. (declaration_tree x.0, x.1.now)) result (declaration_step max_height tokens.now) (length tokens.now) }
{
    let (declared, rest) = declared_type(alloc, tokens)?;
    let (variable, rest) = identifier(alloc, rest)?;
    let (size, rest) = size(alloc, rest, max_height)?;
    let (value, rest) = initialiser(alloc, rest, max_height)?;
    let declaration = Declaration {
        declared,
        variable,
        size,
        value,
    };
    Ok((declaration, rest))
}
