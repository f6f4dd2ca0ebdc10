// Lines and columns.
ghost use Rattle.std.specs.Prelude.{◌≡◌, ◌+◌, ◌<◌, ◌≤◌, ◌^◌, [], length};
ghost use Rattle.std.specs.List.{fold};
ghost use Rattle.secrec_lexer.specs.Places.{place_behind, place_at, next_place};

use crate::bytes::is_newline;
use sc_text::Span;

/// The place of the first byte.
pub fn start() -> Span
    ensures { result ≡ place_behind [] }
{
    Span { line: 1, column: 1 }
}

fn next_place(place: Span, byte: u8) -> Span
    requires lines { place.line + 1 < 2 ^ 32 }
    requires columns { place.column + 1 < 2 ^ 32 }
    ensures { result ≡ next_place place byte }
{
    if is_newline(byte) {
        Span {
            line: place.line + 1,
            column: 1,
        }
    } else {
        Span {
            line: place.line,
            column: place.column + 1,
        }
    }
}

/// The place after these bytes, which stand at that place.
pub fn moved(place: Span, bytes: &[u8]) -> Span
    requires lines { place.line + length bytes.now < 2 ^ 32 }
    requires columns { place.column + length bytes.now < 2 ^ 32 }
    ensures { result ≡ fold next_place place bytes.now }
{
    let mut moved = place;
    for byte in bytes {
        moved = next_place(moved, *byte);
    }
    moved
}

/// The place of the byte at this offset of a text.
#[tactic(auto, unfolding(crate::specs::Places::place_at))]
pub fn place_at(text: &[u8], offset: usize) -> Span
    requires within { offset ≤ length text.now }
    requires room { offset + 1 < 2 ^ 32 }
    ensures { result ≡ place_at text.now offset }
{
    moved(start(), &text[..offset])
}
