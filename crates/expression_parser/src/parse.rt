// Recursive descent: each function reads one phrase, where `max_height` is the height that the whole may have.

ghost use Rattle.std.specs.Prelude.{◌≡◌, ◌-◌, ◌<◌, ◌≤◌, ◌∷◌, length, IfOk};
ghost use Rattle.expression_parser.specs.Steps.{at_most, unary_of, negation_behind, cast_behind, postfix, indexed, primary, signed};
ghost use Rattle.expression_parser.specs.Steps.{parentheses_behind, declassify_behind, argument_behind, publish_behind, after_name, arguments, more};
ghost use Rattle.expression_parser.specs.Steps.{front, grow};
ghost use Rattle.secrec_lexer.specs.Tokens.{IsEnded};
ghost use Rattle.expression_parser.specs.Answer.{Answers};
ghost use Rattle.expression_parser.specs.Given.{Gives, tree_of, tree_height, list_of, trees_height, trees_in};

use crate::behind::{both, closed};
use crate::parsed::{Parsed, ParsedTrees, added, below, binary, element, leaf, no_trees};
use crate::sign::{operator_at, why_not};
use crate::token::{begins_data_type, data_type, expect, text};
use crate::{ParseProblem, Read, Stopped};
use program_trees::Expression;
use sc_text::{Name, Span};
use secrec_lexer::{Sign, Token, TokenKind};
use std::alloc::Global;

// The levels of operators: 0 for what has none between two operands outside brackets.
const UNARY: u8 = 0;

const LOOSEST: u8 = 9;

/// An expression of at most this height, and the tokens after it.
///
/// It stops at the first token such that no expression of at most this height begins with the tokens up to it: that token is
/// unexpected where no expression of any height begins so, and else the tree is too high. Where memory runs out it says so.
///
/// Recursive descent with one level of operators over another. It goes over the tokens once and looks one token ahead; no
/// more than 16 * (max_height + 1) calls nest.
pub fn expression<'a>(alloc: Global, tokens: &'a [Token], max_height: u8) -> Read<'a, Parsed>
    // What the grammar says of the tokens.
    ensures answer { IsEnded tokens.now → Answers (λ x. (tree_of x.0, x.1.now)) max_height tokens.now result }
    ensures height { IfOk result (λ x. (x.0.height ≡ tree_height x.0) × (x.0.height ≤ max_height)) }
    ensures shorter { IfOk result (λ x. length x.1.now < length tokens.now) }
    // The same as a function of the tokens, for the parsers of what expressions stand in.
    ensures step { Gives (λ x. (tree_of x.0, x.1.now)) result (at_most max_height 9 tokens.now) }
{
    operators(alloc, tokens, max_height, LOOSEST)
}

#[cycle(expressions)]
#[tactic(auto, using(crate::proofs::Turns::at_most_unary, crate::proofs::Turns::at_most_grow))]
fn operators<'a>(alloc: Global, tokens: &'a [Token], max_height: u8, level: u8) -> Read<'a, Parsed>
    requires { level ≤ 9 }
    ensures step { Gives (λ x. (tree_of x.0, x.1.now)) result (at_most max_height level tokens.now) }
    ensures height { IfOk result (λ x. (x.0.height ≡ tree_height x.0) × (x.0.height ≤ max_height)) }
    ensures shorter { IfOk result (λ x. length x.1.now < length tokens.now) }
{
    if level == UNARY {
        unary(alloc, tokens, max_height)
    } else {
        let (left, rest) = operators(alloc, tokens, max_height, level - 1)?;
        grow(alloc, left, rest, max_height, level)
    }
}

// A left operand, and the operators of this level after it.
#[cycle(expressions)]
#[tactic(auto, unfolding(crate::specs::Steps::grow))]
fn grow<'a>(
    alloc: Global,
    left: Parsed,
    tokens: &'a [Token],
    max_height: u8,
    level: u8,
) -> Read<'a, Parsed>
    requires level { (0 < level) × (level ≤ 9) }
    requires height { (left.height ≡ tree_height left) × (left.height ≤ max_height) }
    ensures step { Gives (λ x. (tree_of x.0, x.1.now)) result
        (grow level max_height (at_most (max_height - 1) (level - 1)) (length tokens.now) (tree_of left) tokens.now) }
    ensures height { IfOk result (λ x. (x.0.height ≡ tree_height x.0) × (x.0.height ≤ max_height)) }
    ensures shorter { IfOk result (λ x. length x.1.now ≤ length tokens.now) }
{
    let mut left = left;
    let mut rest = tokens;
    loop {
        let Some((token, behind)) = rest.split_first() else {
            return Ok((left, rest));
        };
        let Some(operator) = operator_at(level, &token.kind) else {
            return Ok((left, rest));
        };
        if max_height <= left.height {
            drop(left);
            return Err(Stopped::At(ParseProblem::TooHigh, rest));
        }
        let right = operators(alloc, behind, max_height - 1, level - 1);
        let ((first, second), behind) = both(left, right)?;
        left = binary(alloc, operator, first, second)?;
        rest = behind;
    }
}

#[cycle(expressions)]
#[tactic(auto, unfolding(crate::specs::Steps::unary_of))]
fn unary<'a>(alloc: Global, tokens: &'a [Token], max_height: u8) -> Read<'a, Parsed>
    ensures step { Gives (λ x. (tree_of x.0, x.1.now)) result (unary_of max_height (at_most (max_height - 1) 9) (at_most (max_height - 1) 0) tokens.now) }
    ensures height { IfOk result (λ x. (x.0.height ≡ tree_height x.0) × (x.0.height ≤ max_height)) }
    ensures shorter { IfOk result (λ x. length x.1.now < length tokens.now) }
{
    let Some((token, rest)) = tokens.split_first() else {
        return Err(Stopped::At(ParseProblem::Unexpected, tokens));
    };
    if let Some(problem) = why_not(max_height, &token.kind) {
        return Err(Stopped::At(problem, tokens));
    }
    if token.is(Sign::Exclamation) {
        negation(alloc, token.place, rest, max_height)
    } else if token.is(Sign::LeftParenthesis) && begins_data_type(rest) {
        cast(alloc, token.place, rest, max_height)
    } else {
        postfix(alloc, tokens, max_height)
    }
}

// What stands after `!`.
#[cycle(expressions)]
fn negation<'a>(alloc: Global, place: Span, tokens: &'a [Token], max_height: u8) -> Read<'a, Parsed>
    requires { 0 < max_height }
    ensures step { Gives (λ x. (tree_of x.0, x.1.now)) result (negation_behind (at_most (max_height - 1) 0) place tokens.now) }
    ensures height { IfOk result (λ x. (x.0.height ≡ tree_height x.0) × (x.0.height ≤ max_height)) }
    ensures shorter { IfOk result (λ x. length x.1.now < length tokens.now) }
{
    let operand = operators(alloc, tokens, max_height - 1, UNARY);
    let ((operand, height), rest) = below(alloc, operand)?;
    let tree = Expression::Not(place, operand);
    Ok((Parsed { tree, height }, rest))
}

// What stands after the parenthesis of a cast.
#[cycle(expressions)]
fn cast<'a>(alloc: Global, place: Span, tokens: &'a [Token], max_height: u8) -> Read<'a, Parsed>
    requires { 0 < max_height }
    ensures step { Gives (λ x. (tree_of x.0, x.1.now)) result (cast_behind (at_most (max_height - 1) 0) place tokens.now) }
    ensures height { IfOk result (λ x. (x.0.height ≡ tree_height x.0) × (x.0.height ≤ max_height)) }
    ensures shorter { IfOk result (λ x. length x.1.now < length tokens.now) }
{
    let (data_type, rest) = data_type(tokens)?;
    let (_, rest) = expect(Sign::RightParenthesis, rest)?;
    let operand = operators(alloc, rest, max_height - 1, UNARY);
    let ((operand, height), rest) = below(alloc, operand)?;
    let tree = Expression::Cast(place, data_type, operand);
    Ok((Parsed { tree, height }, rest))
}

// A primary, and an index after it if there is one.
#[cycle(expressions)]
#[tactic(auto, unfolding(crate::specs::Steps::indexed))]
fn postfix<'a>(alloc: Global, tokens: &'a [Token], max_height: u8) -> Read<'a, Parsed>
    requires { 0 < max_height }
    ensures step { Gives (λ x. (tree_of x.0, x.1.now)) result (postfix max_height (at_most (max_height - 1) 9) tokens.now) }
    ensures height { IfOk result (λ x. (x.0.height ≡ tree_height x.0) × (x.0.height ≤ max_height)) }
    ensures shorter { IfOk result (λ x. length x.1.now < length tokens.now) }
{
    let (array, rest) = primary(alloc, tokens, max_height)?;
    let Some((token, behind)) = rest.split_first() else {
        return Ok((array, rest));
    };
    if !token.is(Sign::LeftBracket) {
        return Ok((array, rest));
    }
    if max_height <= array.height {
        drop(array);
        return Err(Stopped::At(ParseProblem::TooHigh, rest));
    }
    let position = operators(alloc, behind, max_height - 1, LOOSEST);
    let (parts, behind) = both(array, position)?;
    let ((array, position), behind) = closed(parts, expect(Sign::RightBracket, behind))?;
    Ok((element(alloc, array, position)?, behind))
}

#[cycle(expressions)]
#[tactic(auto, unfolding(crate::specs::Steps::primary))]
fn primary<'a>(alloc: Global, tokens: &'a [Token], max_height: u8) -> Read<'a, Parsed>
    requires { 0 < max_height }
    ensures step { Gives (λ x. (tree_of x.0, x.1.now)) result (primary (at_most (max_height - 1) 9) tokens.now) }
    ensures height { IfOk result (λ x. (x.0.height ≡ tree_height x.0) × (x.0.height ≤ max_height)) }
    ensures shorter { IfOk result (λ x. length x.1.now < length tokens.now) }
{
    let Some((token, rest)) = tokens.split_first() else {
        return Err(Stopped::At(ParseProblem::Unexpected, tokens));
    };
    match &token.kind {
        TokenKind::Number(word) => Ok((leaf(Expression::Number(token.place, *word)), rest)),
        TokenKind::Name(name) => after_name(alloc, token.place, name, rest, max_height),
        TokenKind::Sign(_) => signed(alloc, token, tokens, rest, max_height),
        TokenKind::Text(_) | TokenKind::End => Err(Stopped::At(ParseProblem::Unexpected, tokens)),
    }
}

// A primary that begins with this sign or keyword.
#[cycle(expressions)]
#[tactic(auto, unfolding(crate::specs::Steps::signed))]
fn signed<'a>(
    alloc: Global,
    token: &'a Token,
    tokens: &'a [Token],
    rest: &'a [Token],
    max_height: u8,
) -> Read<'a, Parsed>
    requires max_height { 0 < max_height }
    requires front { tokens.now ≡ token.now ∷ rest.now }
    ensures step { Gives (λ x. (tree_of x.0, x.1.now)) result (signed (at_most (max_height - 1) 9) token.now rest.now) }
    ensures height { IfOk result (λ x. (x.0.height ≡ tree_height x.0) × (x.0.height ≤ max_height)) }
    ensures shorter { IfOk result (λ x. length x.1.now < length tokens.now) }
{
    let place = token.place;
    if token.is(Sign::True) {
        Ok((leaf(Expression::Truth(place, true)), rest))
    } else if token.is(Sign::False) {
        Ok((leaf(Expression::Truth(place, false)), rest))
    } else if token.is(Sign::LeftParenthesis) {
        parentheses(alloc, place, rest, max_height)
    } else if token.is(Sign::Declassify) {
        declassify(alloc, place, rest, max_height)
    } else if token.is(Sign::Argument) {
        argument(alloc, place, rest)
    } else if token.is(Sign::Publish) {
        publish(alloc, place, rest, max_height)
    } else {
        Err(Stopped::At(ParseProblem::Unexpected, tokens))
    }
}

// What stands after an opening parenthesis.
#[cycle(expressions)]
fn parentheses<'a>(
    alloc: Global,
    place: Span,
    tokens: &'a [Token],
    max_height: u8,
) -> Read<'a, Parsed>
    requires { 0 < max_height }
    ensures step { Gives (λ x. (tree_of x.0, x.1.now)) result (parentheses_behind (at_most (max_height - 1) 9) place tokens.now) }
    ensures height { IfOk result (λ x. (x.0.height ≡ tree_height x.0) × (x.0.height ≤ max_height)) }
    ensures shorter { IfOk result (λ x. length x.1.now < length tokens.now) }
{
    let (inner, rest) = operators(alloc, tokens, max_height - 1, LOOSEST)?;
    let inner = closed(inner, expect(Sign::RightParenthesis, rest));
    let ((inner, height), rest) = below(alloc, inner)?;
    let tree = Expression::Parentheses(place, inner);
    Ok((Parsed { tree, height }, rest))
}

// What stands after `declassify`.
#[cycle(expressions)]
fn declassify<'a>(
    alloc: Global,
    place: Span,
    tokens: &'a [Token],
    max_height: u8,
) -> Read<'a, Parsed>
    requires { 0 < max_height }
    ensures step { Gives (λ x. (tree_of x.0, x.1.now)) result (declassify_behind (at_most (max_height - 1) 9) place tokens.now) }
    ensures height { IfOk result (λ x. (x.0.height ≡ tree_height x.0) × (x.0.height ≤ max_height)) }
    ensures shorter { IfOk result (λ x. length x.1.now < length tokens.now) }
{
    let (_, rest) = expect(Sign::LeftParenthesis, tokens)?;
    let (inner, rest) = operators(alloc, rest, max_height - 1, LOOSEST)?;
    let inner = closed(inner, expect(Sign::RightParenthesis, rest));
    let ((inner, height), rest) = below(alloc, inner)?;
    let tree = Expression::Declassify(place, inner);
    Ok((Parsed { tree, height }, rest))
}

// What stands after `argument`.
fn argument<'a>(alloc: Global, place: Span, tokens: &'a [Token]) -> Read<'a, Parsed>
    ensures step { Gives (λ x. (tree_of x.0, x.1.now)) result (argument_behind place tokens.now) }
    ensures height { IfOk result (λ x. (x.0.height ≡ tree_height x.0) × (x.0.height ≡ 1)) }
    ensures shorter { IfOk result (λ x. length x.1.now < length tokens.now) }
{
    let (_, rest) = expect(Sign::LeftParenthesis, tokens)?;
    let (name, rest) = text(alloc, rest)?;
    let (name, rest) = closed(name, expect(Sign::RightParenthesis, rest))?;
    Ok((leaf(Expression::Argument(place, name)), rest))
}

// What stands after `publish`.
#[cycle(expressions)]
fn publish<'a>(alloc: Global, place: Span, tokens: &'a [Token], max_height: u8) -> Read<'a, Parsed>
    requires { 0 < max_height }
    ensures step { Gives (λ x. (tree_of x.0, x.1.now)) result (publish_behind (at_most (max_height - 1) 9) place tokens.now) }
    ensures height { IfOk result (λ x. (x.0.height ≡ tree_height x.0) × (x.0.height ≤ max_height)) }
    ensures shorter { IfOk result (λ x. length x.1.now < length tokens.now) }
{
    let (_, rest) = expect(Sign::LeftParenthesis, tokens)?;
    let (name, rest) = text(alloc, rest)?;
    let (name, rest) = closed(name, expect(Sign::Comma, rest))?;
    let inner = operators(alloc, rest, max_height - 1, LOOSEST);
    let ((name, inner), rest) = both(name, below(alloc, inner))?;
    let ((name, (inner, height)), rest) = closed(
        (name, inner),
        expect(Sign::RightParenthesis, rest),
    )?;
    let tree = Expression::Publish(place, name, inner);
    Ok((Parsed { tree, height }, rest))
}

// What stands after a name: a call's arguments, or nothing of the primary.
#[cycle(expressions)]
#[tactic(auto, unfolding(crate::specs::Steps::after_name))]
fn after_name<'a>(
    alloc: Global,
    place: Span,
    name: &Name,
    tokens: &'a [Token],
    max_height: u8,
) -> Read<'a, Parsed>
    requires { 0 < max_height }
    ensures step { Gives (λ x. (tree_of x.0, x.1.now)) result (after_name (at_most (max_height - 1) 9) place name.now tokens.now) }
    ensures height { IfOk result (λ x. (x.0.height ≡ tree_height x.0) × (x.0.height ≤ max_height)) }
    ensures shorter { IfOk result (λ x. length x.1.now ≤ length tokens.now) }
{
    let Some((token, rest)) = tokens.split_first() else {
        return Err(Stopped::At(ParseProblem::Unexpected, tokens));
    };
    if !token.is(Sign::LeftParenthesis) {
        return Ok((leaf(Expression::Variable(place, name.copy(alloc)?)), tokens));
    }
    let (found, rest) = arguments(alloc, rest, max_height)?;
    let (found, rest) = closed(found, expect(Sign::RightParenthesis, rest))?;
    let height = found.height + 1;
    let tree = Expression::Call(place, name.copy(alloc)?, found.trees);
    Ok((Parsed { tree, height }, rest))
}

#[cycle(expressions)]
#[tactic(auto, unfolding(crate::specs::Steps::arguments))]
fn arguments<'a>(alloc: Global, tokens: &'a [Token], max_height: u8) -> Read<'a, ParsedTrees>
    requires { 0 < max_height }
    ensures step { Gives (λ x. (trees_in x.0, x.1.now)) result (arguments (at_most (max_height - 1) 9) tokens.now) }
    ensures height { IfOk result (λ x. (x.0.height ≡ trees_height x.0) × (x.0.height < max_height)) }
    ensures shorter { IfOk result (λ x. length x.1.now ≤ length tokens.now) }
{
    let Some((token, _)) = tokens.split_first() else {
        return Err(Stopped::At(ParseProblem::Unexpected, tokens));
    };
    if token.is(Sign::RightParenthesis) {
        return Ok((no_trees(alloc), tokens));
    }
    let (first, rest) = operators(alloc, tokens, max_height - 1, LOOSEST)?;
    let found = added(no_trees(alloc), first)?;
    more(alloc, found, rest, max_height)
}

// The arguments after those that were found.
#[cycle(expressions)]
#[tactic(auto, using(crate::proofs::Turns::more_turns), unfolding(crate::specs::Steps::more))]
fn more<'a>(
    alloc: Global,
    found: ParsedTrees,
    tokens: &'a [Token],
    max_height: u8,
) -> Read<'a, ParsedTrees>
    requires max_height { 0 < max_height }
    requires height { (found.height ≡ trees_height found) × (found.height < max_height) }
    ensures step { Gives (λ x. (trees_in x.0, x.1.now)) result (front (list_of found) (more (at_most (max_height - 1) 9) (length tokens.now) tokens.now)) }
    ensures height { IfOk result (λ x. (x.0.height ≡ trees_height x.0) × (x.0.height < max_height)) }
    ensures shorter { IfOk result (λ x. length x.1.now ≤ length tokens.now) }
{
    let mut found = found;
    let mut rest = tokens;
    loop {
        let Some((token, behind)) = rest.split_first() else {
            return Ok((found, rest));
        };
        if !token.is(Sign::Comma) {
            return Ok((found, rest));
        }
        let next = operators(alloc, behind, max_height - 1, LOOSEST);
        let ((before, next), behind) = both(found, next)?;
        found = added(before, next)?;
        rest = behind;
    }
}
