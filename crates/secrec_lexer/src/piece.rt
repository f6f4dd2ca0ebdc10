ghost use Rattle.std.specs.Prelude.{◌≡◌, ◌+◌, ◌<◌, ◌^◌, length, drop, codes, IsTrue, IfOk};
ghost use Rattle.std.specs.List.{list_all};
ghost use Rattle.sc_text.specs.Name.{is_name_byte};
ghost use Rattle.secrec_lexer.specs.Bytes.{begins, size_to_close, name_run};
ghost use Rattle.secrec_lexer.specs.Signs.{single_sign, keyword};
ghost use Rattle.secrec_lexer.specs.Pieces.{comment, number, word_value, word, text, sign, first};
ghost use Rattle.secrec_lexer.specs.inner.Extents.{IsWithin};

use crate::bytes::{as_text, is_blank, is_name_byte, line_size, name_run, size_to_close};
use crate::number::word_value;
use crate::spelling::{keyword, longer_sign, single_sign};
use crate::{LexFault, TokenKind};
use sc_text::Name;
use std::alloc::{AllocError, Global};

/// What stands at the front of a text.
#[derive(Drop)]
pub enum Piece {
    /// Nothing: the text ends.
    End,
    /// A blank or a comment of so many bytes.
    Blank(usize),
    /// A token of so many bytes.
    Lexeme(TokenKind, usize),
    /// A fault after so many bytes.
    Fault(LexFault, usize),
}

// A comment of many lines, from its `/*` on.
fn comment(bytes: &[u8]) -> Piece
    requires { IsTrue (begins bytes.now (codes "/*")) }
    ensures { result ≡ comment (size_to_close (drop 2 bytes.now)) }
{
    match size_to_close(&bytes[2..]) {
        Some(size) => Piece::Blank(2 + size),
        None => Piece::Fault(LexFault::OpenComment, 0),
    }
}

fn number(word: &[u8]) -> Piece
    requires { IsTrue (list_all is_name_byte word.now) }
    ensures { result ≡ number (word_value word.now) (length word.now) }
{
    match word_value(word) {
        Some(value) => Piece::Lexeme(TokenKind::Number(value), word.len()),
        None => Piece::Fault(LexFault::BadNumber, 0),
    }
}

fn word(alloc: Global, bytes: &[u8]) -> Result<Piece, AllocError>
    requires { IsTrue (list_all is_name_byte bytes.now) }
    ensures { IfOk result (λ piece. piece ≡ word (keyword bytes.now) bytes.now) }
{
    let word = as_text(bytes);
    if let Some(sign) = keyword(word) {
        return Ok(Piece::Lexeme(TokenKind::Sign(sign), bytes.len()));
    }
    match Name::from_str(alloc, word)? {
        Some(name) => Ok(Piece::Lexeme(TokenKind::Name(name), bytes.len())),
        None => Ok(Piece::Fault(LexFault::BadName, 0)),
    }
}

// A string, of which these are the letters, digits and `_`, and what stands after them.
fn text(alloc: Global, bytes: &[u8], behind: &[u8]) -> Result<Piece, AllocError>
    requires names { IsTrue (list_all is_name_byte bytes.now) }
    requires room { length bytes.now + length behind.now + 1 < 2 ^ 64 }
    ensures { IfOk result (λ piece. piece ≡ text bytes.now behind.now) }
{
    match behind.first() {
        Some(b'"') => match Name::from_str(alloc, as_text(bytes))? {
            Some(name) => Ok(Piece::Lexeme(TokenKind::Text(name), bytes.len() + 2)),
            None => Ok(Piece::Fault(LexFault::BadName, 0)),
        },
        Some(b'\n') | None => Ok(Piece::Fault(LexFault::OpenText, 0)),
        Some(_) => Ok(Piece::Fault(LexFault::BadByte, bytes.len() + 1)),
    }
}

fn sign(byte: u8, more: &[u8]) -> Piece
    ensures { result ≡ sign (single_sign byte) byte more.now }
{
    let Some(sign) = single_sign(byte) else {
        return Piece::Fault(LexFault::BadByte, 0);
    };
    match longer_sign(sign, byte, more) {
        Some(longer) => Piece::Lexeme(TokenKind::Sign(longer), 2),
        None => Piece::Lexeme(TokenKind::Sign(sign), 1),
    }
}

/// What stands at the front of a text.
pub fn first(alloc: Global, bytes: &[u8]) -> Result<Piece, AllocError>
    ensures piece { IfOk result (λ piece. piece ≡ first bytes.now) }
    ensures within { IfOk result (λ piece. IsWithin piece (length bytes.now)) }
{
    let Some((byte, more)) = bytes.split_first() else {
        return Ok(Piece::End);
    };
    if is_blank(*byte) {
        Ok(Piece::Blank(1))
    } else if bytes.starts_with(b"//") {
        Ok(Piece::Blank(line_size(bytes)))
    } else if bytes.starts_with(b"/*") {
        Ok(comment(bytes))
    } else if byte.is_ascii_digit() {
        Ok(number(name_run(bytes)))
    } else if is_name_byte(*byte) {
        word(alloc, name_run(bytes))
    } else if *byte == b'"' {
        let run = name_run(more);
        text(alloc, run, &more[run.len()..])
    } else {
        Ok(sign(*byte, more))
    }
}
