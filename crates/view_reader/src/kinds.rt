// Words that are one of a few.
ghost use Rattle.std.specs.Prelude.{◌≡◌};
ghost use Rattle.sc_text.specs.End.{trap_word, owner_digit};
ghost use Rattle.view_text.specs.Reading.{miner_in, link_in, one_of, traps, owners_of_tapes};

use crate::words::is_word;
use proto_core::{Link, Number};
use sc_text::{TapeOwner, TrapKind};

/// The miner whose number this is.
pub fn miner_in(word: &[u8]) -> Option<Number>
    ensures { result ≡ miner_in word.now }
{
    if is_word(word, "1") {
        Some(Number::One)
    } else if is_word(word, "2") {
        Some(Number::Two)
    } else if is_word(word, "3") {
        Some(Number::Three)
    } else {
        None
    }
}

/// The link that this text names.
pub fn link_in(word: &[u8]) -> Option<Link>
    ensures { result ≡ link_in word.now }
{
    Link::from_text(word)
}

/// The trap of which this is the word.
#[tactic(auto, unfolding(sc_text::specs::End::trap_word))]
pub fn trap_in(word: &[u8]) -> Option<TrapKind>
    ensures { result ≡ one_of trap_word traps word.now }
{
    if is_word(word, "Length") {
        Some(TrapKind::Length)
    } else if is_word(word, "Div") {
        Some(TrapKind::Div)
    } else if is_word(word, "Index") {
        Some(TrapKind::Index)
    } else if is_word(word, "Argument") {
        Some(TrapKind::Argument)
    } else if is_word(word, "Depth") {
        Some(TrapKind::Depth)
    } else if is_word(word, "Assert") {
        Some(TrapKind::Assert)
    } else if is_word(word, "Large") {
        Some(TrapKind::Large)
    } else {
        None
    }
}

/// The tape's owner of which this is the digit.
#[tactic(auto, unfolding(sc_text::specs::End::owner_digit))]
pub fn owner_in(word: &[u8]) -> Option<TapeOwner>
    ensures { result ≡ one_of owner_digit owners_of_tapes word.now }
{
    if is_word(word, "0") {
        Some(TapeOwner::Dealer)
    } else if is_word(word, "1") {
        Some(TapeOwner::Miner1)
    } else if is_word(word, "2") {
        Some(TapeOwner::Miner2)
    } else if is_word(word, "3") {
        Some(TapeOwner::Miner3)
    } else {
        None
    }
}
