// Types as they are declared.

ghost use Rattle.std.specs.Prelude.{◌≡◌, ◌+◌, length};
ghost use Rattle.secrec_parser.specs.inner.Steps.{brackets, declared_type, dimension, optional_domain, zero_or_one};
ghost use Rattle.secrec_parser.specs.inner.Given.{Takes};

use crate::tokens::{at_sign, place_at};
use expression_parser::{ParseProblem, Read, Stopped, closed, data_type, expect};
use program_trees::{DeclaredType, Domain, Identifier};
use secrec_lexer::{Sign, Token, TokenKind};
use std::alloc::Global;

/// `public`, a name, or nothing.
fn optional_domain<'a>(alloc: Global, tokens: &'a [Token]) -> Read<'a, Domain>
    ensures { Takes (λ x. (x.0, x.1.now)) result (optional_domain tokens.now) (length tokens.now + 1) }
{
    let Some((token, rest)) = tokens.split_first() else {
        return Err(Stopped::At(ParseProblem::Unexpected, tokens));
    };
    match &token.kind {
        TokenKind::Name(text) => {
            let text = text.copy(alloc)?;
            let place = token.place;
            Ok((Domain::Named(Identifier { place, text }), rest))
        }
        _ => {
            if token.is(Sign::Public) {
                Ok((Domain::Public, rest))
            } else {
                Ok((Domain::Public, tokens))
            }
        }
    }
}

/// The number 0 or 1.
fn zero_or_one<'a>(tokens: &'a [Token]) -> Read<'a, bool>
    ensures { Takes (λ x. (x.0, x.1.now)) result (zero_or_one tokens.now) (length tokens.now) }
{
    let Some((token, rest)) = tokens.split_first() else {
        return Err(Stopped::At(ParseProblem::Unexpected, tokens));
    };
    match token.kind {
        TokenKind::Number(number) => {
            if number == 0 {
                Ok((false, rest))
            } else if number == 1 {
                Ok((true, rest))
            } else {
                Err(Stopped::At(ParseProblem::Unexpected, tokens))
            }
        }
        _ => Err(Stopped::At(ParseProblem::Unexpected, tokens)),
    }
}

fn brackets<'a>(tokens: &'a [Token]) -> Read<'a, bool>
    ensures { Takes (λ x. (x.0, x.1.now)) result (brackets tokens.now) (length tokens.now) }
{
    let (_, rest) = expect(Sign::LeftBracket, tokens)?;
    let (_, rest) = expect(Sign::LeftBracket, rest)?;
    let (array, rest) = zero_or_one(rest)?;
    let (_, rest) = expect(Sign::RightBracket, rest)?;
    closed(array, expect(Sign::RightBracket, rest))
}

/// Whether an array is declared: `[[1]]`. A scalar has `[[0]]` or nothing.
fn dimension<'a>(tokens: &'a [Token]) -> Read<'a, bool>
    ensures { Takes (λ x. (x.0, x.1.now)) result (dimension tokens.now) (length tokens.now + 1) }
{
    if at_sign(Sign::LeftBracket, tokens) {
        brackets(tokens)
    } else {
        Ok((false, tokens))
    }
}

/// The type of a declaration: a domain where one is named, a data type, and whether it is an array.
#[tactic(auto, unfolding(crate::specs::inner::Steps::declared_type))]
pub fn declared_type<'a>(alloc: Global, tokens: &'a [Token]) -> Read<'a, DeclaredType>
    ensures { Takes (λ x. (x.0, x.1.now)) result (declared_type tokens.now) (length tokens.now) }
{
    let (place, rest) = place_at(tokens)?;
    let (domain, rest) = optional_domain(alloc, rest)?;
    let (element, rest) = data_type(rest)?;
    let (array, rest) = dimension(rest)?;
    let declared = DeclaredType {
        place,
        domain,
        element,
        array,
    };
    Ok((declared, rest))
}
