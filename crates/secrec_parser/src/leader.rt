// What a statement is, as far as its first token tells.

ghost use Rattle.std.specs.Prelude.{◌≡◌};
ghost use Rattle.secrec_parser.specs.inner.Steps.{leader_of, least, is_type, name_leader};

use secrec_lexer::{Sign, Token, TokenKind};

/// What a statement is, as far as its first token tells.
#[derive(Clone, Copy)]
pub enum Leader {
    Block,
    Empty,
    If,
    While,
    DoWhile,
    For,
    Break,
    Continue,
    Return,
    Assert,
    Declaration,
    /// A declaration, an assignment or an expression.
    Name,
    /// An expression, or nothing that begins a statement.
    Expression,
}

/// Whether a token is the type of elements.
pub fn is_type(token: &Token) -> bool
    ensures { result ≡ is_type token.now }
{
    token.is(Sign::Uint64)
        || token.is(Sign::Uint)
        || token.is(Sign::Int64)
        || token.is(Sign::Int)
        || token.is(Sign::Bool)
}

/// What a statement is that begins with a token, inside a loop or not.
pub fn leader_of(token: &Token, in_loop: bool) -> Leader
    ensures { result ≡ leader_of in_loop token.now }
{
    if token.is(Sign::LeftBrace) {
        Leader::Block
    } else if token.is(Sign::Semicolon) {
        Leader::Empty
    } else if token.is(Sign::If) {
        Leader::If
    } else if token.is(Sign::While) {
        Leader::While
    } else if token.is(Sign::Do) {
        Leader::DoWhile
    } else if token.is(Sign::For) {
        Leader::For
    } else if token.is(Sign::Break) && in_loop {
        Leader::Break
    } else if token.is(Sign::Continue) && in_loop {
        Leader::Continue
    } else if token.is(Sign::Return) {
        Leader::Return
    } else if token.is(Sign::Assert) {
        Leader::Assert
    } else if token.is(Sign::Public) || is_type(token) {
        Leader::Declaration
    } else {
        name_leader(token)
    }
}

impl Leader {
    /// How high such a statement is at least; an expression sees to that itself.
    pub fn least_height(self) -> u8
        ensures { result ≡ least self }
    {
        match self {
            Leader::Expression => 0,
            Leader::If | Leader::While | Leader::DoWhile | Leader::For | Leader::Assert => 2,
            _ => 1,
        }
    }
}

fn name_leader(token: &Token) -> Leader
    ensures { result ≡ name_leader token.now.kind }
{
    match token.kind {
        TokenKind::Name(_) => Leader::Name,
        _ => Leader::Expression,
    }
}
