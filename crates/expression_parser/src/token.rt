ghost use Rattle.std.specs.Prelude.{◌≡◌, ◌<◌, length, IfOk};
ghost use Rattle.expression_parser.specs.Steps.{expect, text, identifier, data_type, data_type_of, begins_data_type};
ghost use Rattle.expression_parser.specs.Given.{Gives};

use crate::{ParseProblem, Read, Stopped};
use program_trees::{DataType, Identifier};
use sc_text::{Name, Span};
use secrec_lexer::{Sign, Token, TokenKind};
use std::alloc::Global;

/// A sign or keyword: its place.
pub fn expect<'a>(sign: Sign, tokens: &'a [Token]) -> Read<'a, Span>
    ensures step { Gives (λ x. (x.0, x.1.now)) result (expect sign tokens.now) }
    ensures shorter { IfOk result (λ x. length x.1.now < length tokens.now) }
{
    let Some((token, rest)) = tokens.split_first() else {
        return Err(Stopped::At(ParseProblem::Unexpected, tokens));
    };
    if token.is(sign) {
        Ok((token.place, rest))
    } else {
        Err(Stopped::At(ParseProblem::Unexpected, tokens))
    }
}

/// A name.
pub fn identifier<'a>(alloc: Global, tokens: &'a [Token]) -> Read<'a, Identifier>
    ensures step { Gives (λ x. (x.0, x.1.now)) result (identifier tokens.now) }
    ensures shorter { IfOk result (λ x. length x.1.now < length tokens.now) }
{
    let Some((token, rest)) = tokens.split_first() else {
        return Err(Stopped::At(ParseProblem::Unexpected, tokens));
    };
    match &token.kind {
        TokenKind::Name(name) => {
            let text = name.copy(alloc)?;
            let place = token.place;
            Ok((Identifier { place, text }, rest))
        }
        _ => Err(Stopped::At(ParseProblem::Unexpected, tokens)),
    }
}

/// A string: what stands in its quotes.
pub fn text<'a>(alloc: Global, tokens: &'a [Token]) -> Read<'a, Name>
    ensures step { Gives (λ x. (x.0, x.1.now)) result (text tokens.now) }
    ensures shorter { IfOk result (λ x. length x.1.now < length tokens.now) }
{
    let Some((token, rest)) = tokens.split_first() else {
        return Err(Stopped::At(ParseProblem::Unexpected, tokens));
    };
    match &token.kind {
        TokenKind::Text(text) => {
            let text = text.copy(alloc)?;
            Ok((text, rest))
        }
        _ => Err(Stopped::At(ParseProblem::Unexpected, tokens)),
    }
}

fn data_type_of(token: &Token) -> Option<DataType>
    ensures { result ≡ data_type_of token.now }
{
    if token.is(Sign::Uint64) || token.is(Sign::Uint) {
        Some(DataType::Uint64)
    } else if token.is(Sign::Int64) || token.is(Sign::Int) {
        Some(DataType::Int64)
    } else if token.is(Sign::Bool) {
        Some(DataType::Bool)
    } else {
        None
    }
}

/// The type of an element: `uint64` or `uint`, which are one, `int64` or `int`, which are one too, or `bool`.
pub fn data_type<'a>(tokens: &'a [Token]) -> Read<'a, DataType>
    ensures step { Gives (λ x. (x.0, x.1.now)) result (data_type tokens.now) }
    ensures shorter { IfOk result (λ x. length x.1.now < length tokens.now) }
{
    let Some((token, rest)) = tokens.split_first() else {
        return Err(Stopped::At(ParseProblem::Unexpected, tokens));
    };
    match data_type_of(token) {
        Some(data_type) => Ok((data_type, rest)),
        None => Err(Stopped::At(ParseProblem::Unexpected, tokens)),
    }
}

/// Whether the type of an element begins so.
pub fn begins_data_type(tokens: &[Token]) -> bool
    ensures { result ≡ begins_data_type tokens.now }
{
    match tokens.first() {
        Some(token) => {
            token.is(Sign::Uint64)
                || token.is(Sign::Uint)
                || token.is(Sign::Int64)
                || token.is(Sign::Int)
                || token.is(Sign::Bool)
        }
        None => false,
    }
}
