// How signs and keywords are spelled.
ghost use Rattle.std.specs.Prelude.{◌≡◌};
ghost use Rattle.secrec_lexer.specs.Signs.{single_sign, with_equals, doubled, longer_sign, keyword};

use crate::Sign;

/// The sign of this one byte.
#[tactic(auto, unfolding(crate::specs::Signs::single_sign))]
pub fn single_sign(byte: u8) -> Option<Sign>
    ensures { result ≡ single_sign byte }
{
    match byte {
        b'(' => Some(Sign::LeftParenthesis),
        b')' => Some(Sign::RightParenthesis),
        b'[' => Some(Sign::LeftBracket),
        b']' => Some(Sign::RightBracket),
        b'{' => Some(Sign::LeftBrace),
        b'}' => Some(Sign::RightBrace),
        b'<' => Some(Sign::Less),
        b'>' => Some(Sign::Greater),
        b',' => Some(Sign::Comma),
        b';' => Some(Sign::Semicolon),
        b':' => Some(Sign::Colon),
        b'=' => Some(Sign::Assign),
        b'+' => Some(Sign::Plus),
        b'-' => Some(Sign::Minus),
        b'*' => Some(Sign::Star),
        b'/' => Some(Sign::Slash),
        b'%' => Some(Sign::Percent),
        b'&' => Some(Sign::Ampersand),
        b'|' => Some(Sign::Bar),
        b'^' => Some(Sign::Caret),
        b'!' => Some(Sign::Exclamation),
        _ => None,
    }
}

/// The sign that is this one with `=` after it.
fn with_equals(sign: Sign) -> Option<Sign>
    ensures { result ≡ with_equals sign }
{
    match sign {
        Sign::Assign => Some(Sign::Equal),
        Sign::Exclamation => Some(Sign::NotEqual),
        Sign::Less => Some(Sign::LessOrEqual),
        Sign::Greater => Some(Sign::GreaterOrEqual),
        Sign::Plus => Some(Sign::PlusAssign),
        Sign::Minus => Some(Sign::MinusAssign),
        Sign::Star => Some(Sign::StarAssign),
        Sign::Ampersand => Some(Sign::AmpersandAssign),
        Sign::Bar => Some(Sign::BarAssign),
        Sign::Caret => Some(Sign::CaretAssign),
        _ => None,
    }
}

/// The sign that is this one written twice, `==` apart.
fn doubled(sign: Sign) -> Option<Sign>
    ensures { result ≡ doubled sign }
{
    match sign {
        Sign::Ampersand => Some(Sign::DoubleAmpersand),
        Sign::Bar => Some(Sign::DoubleBar),
        Sign::Plus => Some(Sign::Increment),
        Sign::Minus => Some(Sign::Decrement),
        _ => None,
    }
}

/// The sign of two bytes that begins with this one, spelled by this byte, if more bytes go on so.
pub fn longer_sign(sign: Sign, byte: u8, more: &[u8]) -> Option<Sign>
    ensures { result ≡ longer_sign sign byte more.now }
{
    let next = *more.first()?;
    if next == b'=' {
        with_equals(sign)
    } else if next == byte {
        doubled(sign)
    } else {
        None
    }
}

/// The keyword that the word is.
#[tactic(auto, unfolding(crate::specs::Signs::keyword))]
pub fn keyword(word: &str) -> Option<Sign>
    ensures { result ≡ keyword word.now }
{
    match word {
        "import" => Some(Sign::Import),
        "kind" => Some(Sign::Kind),
        "domain" => Some(Sign::Domain),
        "template" => Some(Sign::Template),
        "public" => Some(Sign::Public),
        "void" => Some(Sign::Void),
        "uint64" => Some(Sign::Uint64),
        "uint" => Some(Sign::Uint),
        "int64" => Some(Sign::Int64),
        "int" => Some(Sign::Int),
        "bool" => Some(Sign::Bool),
        "if" => Some(Sign::If),
        "else" => Some(Sign::Else),
        "while" => Some(Sign::While),
        "do" => Some(Sign::Do),
        "for" => Some(Sign::For),
        "break" => Some(Sign::Break),
        "continue" => Some(Sign::Continue),
        "return" => Some(Sign::Return),
        "assert" => Some(Sign::Assert),
        "true" => Some(Sign::True),
        "false" => Some(Sign::False),
        "argument" => Some(Sign::Argument),
        "publish" => Some(Sign::Publish),
        "declassify" => Some(Sign::Declassify),
        _ => None,
    }
}
