ghost use Rattle.std.specs.Prelude.{◌≡◌, ◌≤◌, List, ◌∷◌, [], ◌++◌, length, not, IsTrue, IfOk, IfErr};
ghost use Rattle.std.specs.List.{list_all};
ghost use Rattle.sc_text.specs.declared.span.Span.{Span};
ghost use Rattle.secrec_lexer.specs.declared.token.Token.{Token};
ghost use Rattle.secrec_lexer.specs.declared.lex_err.LexFault.{LexFault};
ghost use Rattle.secrec_lexer.specs.declared.lex_err.LexErr.TheVariants.{Memory};
ghost use Rattle.secrec_lexer.specs.declared.token.TokenKind.TheVariants.{End as EndOfText};
ghost use Rattle.secrec_lexer.specs.Tokens.{is_end};
ghost use Rattle.secrec_lexer.specs.Lexis.{HasTokens, IsRefused, IsDecided, IsAnswer, IsTokens, IsRefusal};

use crate::piece::{Piece, first};
use crate::place::{moved, place_at, start};
use crate::{LexErr, LexFault, Token, TokenKind, Tokens};
use sc_text::Span;
use std::alloc::Global;

const LONGEST_TEXT: usize = 1_048_576;

// The tokens with the end of the text after them.
fn with_end(mut tokens: Vec<Token>, place: Span) -> Result<Tokens, LexErr>
    requires { IsTrue (list_all (λ token. not (is_end token.kind)) tokens.items) }
    ensures ok { IfOk result (λ found. found ≡ tokens.items ++ record { place = place; kind = EndOfText } ∷ []) }
    ensures err { IfErr result (λ error. error ≡ Memory) }
{
    tokens.push(Token {
        place,
        kind: TokenKind::End,
    })?;
    Ok(Tokens::new(tokens))
}

// The tokens of a text that is not too long, piece after piece.
fn cut(alloc: Global, text: &[u8]) -> Result<Tokens, LexErr>
    requires { length text.now ≤ 1048576 }
    ensures { IsAnswer text.now result }
{
    let mut tokens = Vec::new(alloc);
    let mut at = 0;
    let mut place = start();
    loop {
        let rest = &text[at..];
        let size = match first(alloc, rest)? {
            Piece::End => return with_end(tokens, place),
            Piece::Fault(fault, before) => {
                let place = moved(place, &rest[..before]);
                return Err(LexErr::Refused { fault, place });
            }
            Piece::Blank(size) => size,
            Piece::Lexeme(kind, size) => {
                tokens.push(Token { place, kind })?;
                size
            }
        };
        place = moved(place, &rest[..size]);
        at += size;
    }
}

/// The tokens of a program's text, the end of it after them; or its first fault, and the line and column where it stands.
///
/// A text of more than 1,048,576 bytes is refused for its length, before all else, at the byte after as many.
pub fn lex(alloc: Global, text: &[u8]) -> Result<Tokens, LexErr>
    ensures answer { IsAnswer text.now result }

    // Exactly these tokens, and exactly this refusal, unless memory ran short.
    ensures only_tokens { (tokens : List Token) → HasTokens text.now tokens → IsTokens result tokens }
    ensures only_refusal { (fault : LexFault) (place : Span) → IsRefused text.now fault place
        → IsRefusal result fault place }

    // A text has one list of tokens or one refusal, and not both.
    ensures decided { IsDecided text.now }
    ensures one_list { (tokens others : List Token) → HasTokens text.now tokens → HasTokens text.now others
        → tokens ≡ others }
    ensures one_refusal { (fault other : LexFault) (place spot : Span) → IsRefused text.now fault place
        → IsRefused text.now other spot → (fault ≡ other) × (place ≡ spot) }
    ensures not_both { (tokens : List Token) (fault : LexFault) (place : Span) → HasTokens text.now tokens
        → IsRefused text.now fault place → ⊥ }
{
    if text.len() > LONGEST_TEXT {
        let place = place_at(text, LONGEST_TEXT);
        return Err(LexErr::Refused {
            fault: LexFault::TooLong,
            place,
        });
    }
    cut(alloc, text)
}
