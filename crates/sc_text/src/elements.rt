ghost use Rattle.std.specs.Prelude.{◌≡◌, [], ◌∷◌, ◌++◌, List, Some, OnOk, OnErr};
ghost use Rattle.sc_text.specs.declared.elements.Element.{Element};
ghost use Rattle.sc_text.specs.Elements.{element_text, elements_text, element_word};

use std::alloc::{AllocError, Global};
use std::fmt;
use std::marker::Model;

/// What the elements of a value are, whatever they are: an element that isn't below 0 doesn't tell by itself whether it may have a sign.
#[derive(Clone, Copy)]
pub enum ElementKind {
    /// Numbers without a sign.
    Unsigned,
    /// Numbers with a sign.
    Signed,
    /// Truth values.
    TruthValue,
}

/// An element of a printed value.
#[derive(Clone, Copy)]
pub enum Element {
    /// A number that isn't below 0.
    Word(u64),
    /// A number below 0, by what it is below 0: from 1 to 2^63.
    Negative(u64),
    Truth(bool),
}

impl Element {
    /// The element as a word: a number below 0 by two's complement, a truth value 1 or 0.
    pub fn word(self) -> u64
        ensures { result ≡ element_word self }
    {
        match self {
            Element::Word(word) => word,
            Element::Negative(below) => below.wrapping_neg(),
            Element::Truth(true) => 1,
            Element::Truth(false) => 0,
        }
    }
}

/// Writes a number in decimal, after `-` where it is below 0, and a truth value as `true` or `false`.
impl fmt::Display for Element {
    ghost output = { λ element. Some (element_text element) };

    #[tactic(auto, unfolding(crate::specs::Elements::element_text))]
    fn fmt<W: fmt::Write>(&self, f: &mut fmt::Formatter<W>) -> fmt::Result {
        match self {
            Element::Word(word) => write!(f, "{word}"),
            Element::Negative(below) => write!(f, "-{below}"),
            Element::Truth(true) => f.write_str("true"),
            Element::Truth(false) => f.write_str("false"),
        }
    }
}

/// The elements of a printed value, in order. Clauses see the list.
#[derive(Drop)]
pub struct Elements {
    elements: Vec<Element>,
}

impl Model for Elements {
    ghost Value = { List Element };

    ghost view = { λ e. e.elements.items };
}

impl Elements {
    /// No elements.
    pub fn new(alloc: Global) -> Elements
        ensures { result ≡ [] }
    {
        Elements {
            elements: Vec::new(alloc),
        }
    }

    /// These elements.
    pub fn from_vec(elements: Vec<Element>) -> Elements
        ensures { result ≡ elements.items }
    {
        Elements { elements }
    }

    /// Puts one more element at the end. Without memory all stays as it was.
    pub fn push(&mut self, element: Element) -> Result<(), AllocError>
        ensures ok { OnOk result (self.new ≡ self.old ++ element ∷ []) }
        ensures err { OnErr result (self.new ≡ self.old) }
    {
        self.elements.push(element)?;
        Ok(())
    }

    /// The elements as a slice.
    pub fn as_slice(&self) -> &[Element]
        ensures { result.now ≡ self.now }
    {
        self.elements.as_slice()
    }
}

/// Writes a space and the element, for each.
impl fmt::Display for Elements {
    ghost output = { λ elements. Some (elements_text elements) };

    #[tactic(auto, unfolding(crate::specs::Elements::elements_text))]
    fn fmt<W: fmt::Write>(&self, f: &mut fmt::Formatter<W>) -> fmt::Result {
        for element in self.as_slice() {
            write!(f, " {element}")?;
        }
        Ok(())
    }
}
