ghost use Rattle.std.specs.Prelude.{◌≡◌, List, IsTrue};
ghost use Rattle.secrec_lexer.specs.declared.token.Token.{Token};
ghost use Rattle.secrec_lexer.specs.Tokens.{is_sign, IsEnded};

use crate::Sign;
use sc_text::{Name, Span};
use std::marker::Model;

/// What a token is.
#[derive(Drop)]
pub enum TokenKind {
    /// An identifier that is no keyword.
    Name(Name),
    /// A number, decimal or hexadecimal.
    Number(u64),
    /// A string, without its quotes.
    Text(Name),
    /// A sign or a keyword.
    Sign(Sign),
    /// The end of the text.
    End,
}

/// A token, and the line and column of its first byte.
#[derive(Drop)]
pub struct Token {
    pub place: Span,
    pub kind: TokenKind,
}

impl Token {
    /// Whether it is this sign or keyword.
    pub fn is(&self, sign: Sign) -> bool
        ensures { result ≡ is_sign sign self.now }
    {
        match self.kind {
            TokenKind::Sign(other) => sign as u8 == other as u8,
            _ => false,
        }
    }
}

/// The tokens of a text: the last is its end, and no other is. Clauses see the list.
#[derive(Drop)]
pub struct Tokens {
    tokens: Vec<Token>,
}

impl Model for Tokens {
    ghost Value = { List Token };

    ghost view = { λ t. t.tokens.items };

    ghost invariant = { λ t. IsEnded t.tokens.items };
}

impl Tokens {
    /// These tokens.
    pub(crate) fn new(tokens: Vec<Token>) -> Tokens
        requires { IsEnded tokens.items }
        ensures { result ≡ tokens.items }
    {
        Tokens { tokens }
    }

    /// The tokens as a slice.
    pub fn as_slice(&self) -> &[Token]
        ensures value { result.now ≡ self.now }
        ensures ended { IsEnded self.now }
    {
        self.tokens.as_slice()
    }
}
