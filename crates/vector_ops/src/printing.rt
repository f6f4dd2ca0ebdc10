// Words as they are printed.
ghost use Rattle.std.specs.Prelude.{◌≡◌, map, IfOk};
ghost use Rattle.language_model.specs.Values.{element_as, element_of, printed_kind, signed_element};

use program_trees::DataType;
use sc_text::{Element, ElementKind, Elements};
use std::alloc::{AllocError, Global};

/// How many words there are whose number with a sign isn't below 0.
const HALF: u64 = 1 << 63;

/// A word as a number with a sign, by its two's complement.
fn printed_signed(x: u64) -> Element
    ensures { result ≡ signed_element x }
{
    if x < HALF {
        Element::Word(x)
    } else {
        Element::Negative(x.wrapping_neg())
    }
}

/// The element of a kind that a word stands for: a number with a sign by two's complement, a truth value by bit 0.
pub fn element_as(kind: ElementKind, word: u64) -> Element
    ensures { result ≡ element_as kind word }
{
    match kind {
        ElementKind::Unsigned => Element::Word(word),
        ElementKind::Signed => printed_signed(word),
        ElementKind::TruthValue => Element::Truth(word % 2 != 0),
    }
}

/// What the elements of a data type are, as they are printed.
pub fn printed_kind(element: DataType) -> ElementKind
    ensures { result ≡ printed_kind element }
{
    match element {
        DataType::Uint64 => ElementKind::Unsigned,
        DataType::Int64 => ElementKind::Signed,
        DataType::Bool => ElementKind::TruthValue,
    }
}

/// A word as an element of a data type: a truth value is true where the word isn't 0.
fn printed(element: DataType, x: u64) -> Element
    ensures { result ≡ element_of element x }
{
    match element {
        DataType::Uint64 => Element::Word(x),
        DataType::Int64 => printed_signed(x),
        DataType::Bool => Element::Truth(x != 0),
    }
}

/// The words as elements of a data type.
pub fn elements(alloc: Global, element: DataType, xs: &[u64]) -> Result<Elements, AllocError>
    ensures { IfOk result (λ e. e ≡ map (element_of element) xs.now) }
{
    let mut elements = Elements::new(alloc);
    for x in xs {
        elements.push(printed(element, *x))?;
    }
    Ok(elements)
}
