ghost use Rattle.std.specs.Prelude.{◌≡◌, ◌<◌, IfNone};
ghost use Rattle.expression_parser.specs.Grammar.{operator_of, level};
ghost use Rattle.expression_parser.specs.Steps.{least_of_sign, least, why_not, operator_at, at_level};

use crate::ParseProblem;
use program_trees::Operator;
use secrec_lexer::{Sign, TokenKind};

fn least_of_sign(sign: Sign) -> Option<u8>
    ensures { result ≡ least_of_sign sign }
{
    match sign {
        Sign::True | Sign::False | Sign::Argument => Some(1),
        Sign::LeftParenthesis | Sign::Exclamation | Sign::Declassify | Sign::Publish => Some(2),
        _ => None,
    }
}

fn least_height(kind: &TokenKind) -> Option<u8>
    ensures { result ≡ least kind.now }
{
    match kind {
        TokenKind::Name(_) | TokenKind::Number(_) => Some(1),
        TokenKind::Sign(sign) => least_of_sign(*sign),
        TokenKind::Text(_) | TokenKind::End => None,
    }
}

// Why no expression of at most this height begins with such a token.
pub fn why_not(max_height: u8, kind: &TokenKind) -> Option<ParseProblem>
    ensures problem { result ≡ why_not max_height (least kind.now) }
    ensures max_height { IfNone result (0 < max_height) }
{
    match least_height(kind) {
        None => Some(ParseProblem::Unexpected),
        Some(least) => {
            if max_height < least {
                Some(ParseProblem::TooHigh)
            } else {
                None
            }
        }
    }
}

fn operator_of(sign: Sign) -> Option<Operator>
    ensures { result ≡ operator_of sign }
{
    match sign {
        Sign::Plus => Some(Operator::Add),
        Sign::Minus => Some(Operator::Subtract),
        Sign::Star => Some(Operator::Multiply),
        Sign::Slash => Some(Operator::Divide),
        Sign::Percent => Some(Operator::Remainder),
        Sign::Equal => Some(Operator::Equal),
        Sign::NotEqual => Some(Operator::NotEqual),
        Sign::Less => Some(Operator::Less),
        Sign::LessOrEqual => Some(Operator::LessOrEqual),
        Sign::Greater => Some(Operator::Greater),
        Sign::GreaterOrEqual => Some(Operator::GreaterOrEqual),
        Sign::Ampersand => Some(Operator::And),
        Sign::Bar => Some(Operator::Or),
        Sign::Caret => Some(Operator::Xor),
        Sign::DoubleAmpersand => Some(Operator::AndAlso),
        Sign::DoubleBar => Some(Operator::OrElse),
        _ => None,
    }
}

fn level(operator: Operator) -> u8
    ensures { result ≡ level operator }
{
    match operator {
        Operator::Multiply | Operator::Divide | Operator::Remainder => 1,
        Operator::Add | Operator::Subtract => 2,
        Operator::Less | Operator::LessOrEqual | Operator::Greater | Operator::GreaterOrEqual => 3,
        Operator::Equal | Operator::NotEqual => 4,
        Operator::And => 5,
        Operator::Xor => 6,
        Operator::Or => 7,
        Operator::AndAlso => 8,
        Operator::OrElse => 9,
    }
}

// The operator that such a token is, if it is of this level.
pub fn operator_at(wanted: u8, kind: &TokenKind) -> Option<Operator>
    ensures { result ≡ at_level wanted (operator_at kind.now) }
{
    let TokenKind::Sign(sign) = kind else {
        return None;
    };
    match operator_of(*sign) {
        Some(operator) => (level(operator) == wanted).then_some(operator),
        None => None,
    }
}
