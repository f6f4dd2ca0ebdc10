//! Numbers, miners and seeds as text.
ghost use Rattle.std.specs.Prelude.{◌≡◌, ◌≤◌, IfSome};
ghost use Rattle.std.specs.List.{list_all};
ghost use Rattle.std.specs.Char.{is_ascii_digit};
ghost use Rattle.command_words.specs.Numbers.{number_of, miner_of, port_of, seed_of, is_lower_hex};

use hex::FromHex;
use proto_core::Number;

fn all_digits(bytes: &[u8]) -> bool
    ensures { result ≡ list_all is_ascii_digit bytes.now }
{
    for b in bytes {
        if !b.is_ascii_digit() {
            return false;
        }
    }
    true
}

/// The number that decimal digits spell, below 2^64.
// `parse` alone takes a sign too.
#[tactic(auto, using(crate::proofs::NumberLemmas::number_read, crate::proofs::NumberLemmas::no_number))]
pub(crate) fn number(text: &str) -> Option<u64>
    ensures { result ≡ number_of text.now }
{
    if !all_digits(text.as_bytes()) {
        return None;
    }
    text.parse::<u64>().ok()
}

/// The miner whose number decimal digits spell: 1, 2 or 3.
#[tactic(auto, unfolding(crate::specs::Numbers::miner_of))]
pub(crate) fn miner(text: &str) -> Option<Number>
    ensures { result ≡ miner_of text.now }
{
    match number(text)? {
        1 => Some(Number::One),
        2 => Some(Number::Two),
        3 => Some(Number::Three),
        _ => None,
    }
}

const MOST_PORT: u64 = 65_533;

/// The first of three ports, which decimal digits spell: 1 to 65,533.
#[tactic(auto, unfolding(crate::specs::Numbers::port_of))]
pub(crate) fn port(text: &str) -> Option<u16>
    ensures value { result ≡ port_of text.now }
    ensures from { IfSome result (λ port. 1 ≤ port) }
    ensures to { IfSome result (λ port. port ≤ 65533) }
{
    let port = number(text)?;
    if 1 <= port && port <= MOST_PORT {
        Some(port as u16)
    } else {
        None
    }
}

fn is_lower_hex_digit(c: u8) -> bool
    ensures { result ≡ is_lower_hex c }
{
    matches!(c, b'0'..=b'9' | b'a'..=b'f')
}

fn all_lower_hex(bytes: &[u8]) -> bool
    ensures { result ≡ list_all is_lower_hex bytes.now }
{
    for b in bytes {
        if !is_lower_hex_digit(*b) {
            return false;
        }
    }
    true
}

/// The 32 bytes that 64 lower-case hexadecimal digits spell.
// `from_hex` alone takes upper case too.
#[tactic(auto, unfolding(crate::specs::Numbers::seed_of))]
pub(crate) fn seed(text: &str) -> Option<[u8; 32]>
    ensures { result ≡ seed_of text.now }
{
    if text.len() == 64 && all_lower_hex(text.as_bytes()) {
        return <[u8; 32] as FromHex>::from_hex(text).ok();
    }
    None
}
