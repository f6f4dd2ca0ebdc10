// Texts, and their tokens.
use row_files::Lines;
use secrec_lexer::{Sign, Token, TokenKind, lex};
use std::alloc::Global;

// Every sign and keyword, in order.
const SIGNS: [Sign; 58] = [
    Sign::LeftParenthesis,
    Sign::RightParenthesis,
    Sign::LeftBracket,
    Sign::RightBracket,
    Sign::LeftBrace,
    Sign::RightBrace,
    Sign::Less,
    Sign::Greater,
    Sign::Comma,
    Sign::Semicolon,
    Sign::Colon,
    Sign::Assign,
    Sign::Plus,
    Sign::Minus,
    Sign::Star,
    Sign::Slash,
    Sign::Percent,
    Sign::Ampersand,
    Sign::Bar,
    Sign::Caret,
    Sign::Exclamation,
    Sign::Equal,
    Sign::NotEqual,
    Sign::LessOrEqual,
    Sign::GreaterOrEqual,
    Sign::DoubleAmpersand,
    Sign::DoubleBar,
    Sign::PlusAssign,
    Sign::MinusAssign,
    Sign::StarAssign,
    Sign::AmpersandAssign,
    Sign::BarAssign,
    Sign::CaretAssign,
    Sign::Increment,
    Sign::Decrement,
    Sign::Import,
    Sign::Kind,
    Sign::Domain,
    Sign::Template,
    Sign::Public,
    Sign::Void,
    Sign::Uint64,
    Sign::Uint,
    Sign::Bool,
    Sign::If,
    Sign::Else,
    Sign::While,
    Sign::Do,
    Sign::For,
    Sign::Break,
    Sign::Continue,
    Sign::Return,
    Sign::Assert,
    Sign::True,
    Sign::False,
    Sign::Argument,
    Sign::Publish,
    Sign::Declassify,
];

// A token and the line and column where it begins.
fn add_token(lines: &mut Lines, token: &Token) {
    match &token.kind {
        TokenKind::Name(name) => write!(lines, "{}", name.as_str()),
        TokenKind::Number(number) => write!(lines, "{number}"),
        TokenKind::Text(name) => write!(lines, "text {}", name.as_str()),
        TokenKind::Sign(_) => lines.add("sign"),
        TokenKind::End => lines.add("end"),
    }
    write!(lines, "@{}:{} ", token.place.line, token.place.column);
}

fn tell_list(lines: &mut Lines, tokens: &[Token]) {
    for token in tokens {
        add_token(lines, token);
    }
    lines.add("\n");
}

// A text's tokens.
fn tell_tokens(alloc: Global, lines: &mut Lines, source: &[u8]) {
    lines.add("tokens ");
    match lex(alloc, source) {
        Ok(tokens) => tell_list(lines, tokens.as_slice()),
        Err(_) => lines.add("refused\n"),
    }
}

// How many of the tokens are the signs, each in its place, and how many tokens there are.
fn tell_signs(lines: &mut Lines, tokens: &[Token]) {
    let mut count = 0usize;
    for (token, sign) in tokens.iter().zip(SIGNS.iter()) {
        if token.is(*sign) {
            count = count.saturating_add(1);
        }
    }
    write!(lines, "signs {count} of {} tokens\n", tokens.len());
}

const ALL_SIGNS: &[u8] =
    b"()[]{} < > ,;:= + - * / % & | ^ ! == != <= >= && || += -= *= &= |= ^= ++ --
        import kind domain template public void uint64 uint bool if else while do for
        break continue return assert true false argument publish declassify";

const SOURCES: [&[u8]; 3] = [
    b"a0\t/*\n\r*/<=1// \xff\n\"b_\" ",
    b" /* 2 */ 3 // 4",
    b"0xFFFFFFFFFFFFFFFF;",
];

/// The lines of tokens at their places, and of all signs and keywords.
pub fn tell(alloc: Global, lines: &mut Lines) {
    for source in SOURCES {
        tell_tokens(alloc, lines, source);
    }
    match lex(alloc, ALL_SIGNS) {
        Ok(tokens) => tell_signs(lines, tokens.as_slice()),
        Err(_) => lines.add("signs refused\n"),
    }
}
