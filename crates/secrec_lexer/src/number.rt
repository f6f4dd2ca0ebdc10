// Numbers, decimal and hexadecimal.
ghost use Rattle.std.specs.Prelude.{◌≡◌, ◌≤◌, IsTrue};
ghost use Rattle.std.specs.List.{list_all};
ghost use Rattle.sc_text.specs.Name.{is_name_byte};
ghost use Rattle.secrec_lexer.specs.Pieces.{number_spelled, word_value};

use crate::bytes::as_text;

fn number_spelled(digits: &[u8], radix: u32) -> Option<u64>
    requires names { IsTrue (list_all is_name_byte digits.now) }
    requires low { 2 ≤ radix }
    requires high { radix ≤ 36 }
    ensures { result ≡ number_spelled radix digits.now }
{
    u64::from_str_radix(as_text(digits), radix).ok()
}

/// The number that a word of letters, digits and `_` spells, in decimal, or in hexadecimal after `0x`.
pub fn word_value(word: &[u8]) -> Option<u64>
    requires { IsTrue (list_all is_name_byte word.now) }
    ensures { result ≡ word_value word.now }
{
    if word.starts_with(b"0x") {
        number_spelled(&word[2..], 16)
    } else {
        number_spelled(word, 10)
    }
}
