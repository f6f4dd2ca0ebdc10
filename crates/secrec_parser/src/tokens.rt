// Single tokens.

ghost use Rattle.std.specs.Prelude.{◌≡◌, IfOk};
ghost use Rattle.secrec_parser.specs.inner.Steps.{at_sign, at_end, place_at};
ghost use Rattle.expression_parser.specs.Steps.{operator_at};
ghost use Rattle.expression_parser.specs.Given.{Gives};

use expression_parser::{ParseProblem, Read, Stopped};
use program_trees::Operator;
use sc_text::Span;
use secrec_lexer::{Sign, Token, TokenKind};

/// Whether the next token is this sign.
pub fn at_sign(sign: Sign, tokens: &[Token]) -> bool
    ensures { result ≡ at_sign sign tokens.now }
{
    match tokens.split_first() {
        Some((token, _)) => token.is(sign),
        None => false,
    }
}

/// Whether the text ends here.
pub fn at_end(tokens: &[Token]) -> bool
    ensures { result ≡ at_end tokens.now }
{
    match tokens.split_first() {
        Some((token, _)) => matches!(token.kind, TokenKind::End),
        None => false,
    }
}

/// The place of the next token, which stays.
pub fn place_at<'a>(tokens: &'a [Token]) -> Read<'a, Span>
    ensures step { Gives (λ x. (x.0, x.1.now)) result (place_at tokens.now) }
    ensures same { IfOk result (λ x. x.1.now ≡ tokens.now) }
{
    match tokens.split_first() {
        Some((token, _)) => Ok((token.place, tokens)),
        None => Err(Stopped::At(ParseProblem::Unexpected, tokens)),
    }
}

/// The operator between two operands that a token is, if it is one.
pub fn operator_of(token: &Token) -> Option<Operator>
    ensures { result ≡ operator_at token.now.kind }
{
    let TokenKind::Sign(sign) = token.kind else {
        return None;
    };
    match sign {
        Sign::Plus => Some(Operator::Add),
        Sign::Minus => Some(Operator::Subtract),
        Sign::Star => Some(Operator::Multiply),
        Sign::Slash => Some(Operator::Divide),
        Sign::Percent => Some(Operator::Remainder),
        Sign::Equal => Some(Operator::Equal),
        Sign::NotEqual => Some(Operator::NotEqual),
        Sign::Less => Some(Operator::Less),
        Sign::LessOrEqual => Some(Operator::LessOrEqual),
        Sign::Greater => Some(Operator::Greater),
        Sign::GreaterOrEqual => Some(Operator::GreaterOrEqual),
        Sign::Ampersand => Some(Operator::And),
        Sign::Bar => Some(Operator::Or),
        Sign::Caret => Some(Operator::Xor),
        Sign::DoubleAmpersand => Some(Operator::AndAlso),
        Sign::DoubleBar => Some(Operator::OrElse),
        _ => None,
    }
}
