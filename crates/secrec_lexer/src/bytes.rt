// Which bytes are what, and how many stand at a front.
ghost use Rattle.std.specs.Prelude.{◌≡◌, ◌≤◌, IsTrue, IfSome, length};
ghost use Rattle.std.specs.List.{list_all};
ghost use Rattle.sc_text.specs.Name.{is_name_byte};
ghost use Rattle.secrec_lexer.specs.Bytes.{is_blank, is_newline, name_run, first_line, size_to_close};

use std::str;

/// Whether a byte is a space, a tab, a carriage return or a newline.
pub fn is_blank(byte: u8) -> bool
    ensures { result ≡ is_blank byte }
{
    byte == b' ' || byte == b'\t' || byte == b'\r' || byte == b'\n'
}

/// Whether a byte ends a line.
pub fn is_newline(byte: u8) -> bool
    ensures { result ≡ is_newline byte }
{
    byte == b'\n'
}

/// Whether a byte is a letter, a digit or `_`.
pub fn is_name_byte(byte: u8) -> bool
    ensures { result ≡ is_name_byte byte }
{
    byte.is_ascii_alphanumeric() || byte == b'_'
}

/// How many letters, digits and `_` stand at the front.
fn name_size(bytes: &[u8]) -> usize
    ensures { result ≡ length (name_run bytes.now) }
{
    bytes.iter().take_while(|byte| is_name_byte(**byte)).count()
}

/// The letters, digits and `_` at the front.
pub fn name_run(bytes: &[u8]) -> &[u8]
    ensures run { result.now ≡ name_run bytes.now }
    ensures names { IsTrue (list_all is_name_byte result.now) }
{
    &bytes[..name_size(bytes)]
}

/// How many bytes stand before the first newline.
pub fn line_size(bytes: &[u8]) -> usize
    ensures { result ≡ length (first_line bytes.now) }
{
    bytes.iter().take_while(|byte| !is_newline(**byte)).count()
}

/// How many bytes there are up to the first `*/` and with it.
pub fn size_to_close(bytes: &[u8]) -> Option<usize>
    ensures size { result ≡ size_to_close bytes.now }
    ensures within { IfSome result (λ size. size ≤ length bytes.now) }
{
    for at in 0..bytes.len() {
        if bytes[at..].starts_with(b"*/") {
            return Some(at + 2);
        }
    }
    None
}

/// Letters, digits and `_` as text.
pub fn as_text(bytes: &[u8]) -> &str
    requires { IsTrue (list_all is_name_byte bytes.now) }
    ensures { result.now ≡ bytes.now }
{
    str::from_utf8(bytes).unwrap()
}
