// The words that the gates of a run opened, by what was told of it.
ghost use Rattle.std.specs.Prelude.{◌≡◌, ◌∷◌, [], ◌++◌, map, IfOk, OnOk};
ghost use Rattle.sc_text.specs.Elements.{element_word};
ghost use Rattle.language_model.specs.Learned.{elements_words, learned_of};

use input_share::shared_as;
use sc_text::{Element, Event};
use std::alloc::{AllocError, Global};
use value_file::DataType;

/// Elements, each as a word.
fn words_of(alloc: Global, elements: &[Element]) -> Result<Vec<u64>, AllocError>
    ensures { IfOk result (λ words. words.items ≡ map element_word elements.now) }
{
    let mut words = Vec::with_capacity(alloc, elements.len())?;
    for element in elements {
        words.push(element.word())?;
    }
    Ok(words)
}

/// Elements as gates have them: numbers in a word each, truth values packed.
fn opening_words(alloc: Global, elements: &[Element]) -> Result<Vec<u64>, AllocError>
    ensures { IfOk result (λ words. words.items ≡ elements_words elements.now) }
{
    let words = words_of(alloc, elements)?;
    match elements.first() {
        Some(Element::Truth(_)) => shared_as(alloc, DataType::Bool, words),
        Some(Element::Word(_)) | Some(Element::Negative(_)) | None => Ok(words),
    }
}

/// The words of an event, if it is an opening, after others.
fn push_learned(alloc: Global, learned: &mut Vec<u64>, event: &Event) -> Result<(), AllocError>
    ensures { OnOk result (learned.new.items ≡ learned.old.items ++ learned_of (event.now ∷ [])) }
{
    match event {
        Event::Open(elements) => {
            let words = opening_words(alloc, elements.as_slice())?;
            learned.extend_from_slice(&words)?;
            Ok(())
        }
        Event::Publish(_, _) | Event::Hand(_, _, _) => Ok(()),
    }
}

/// The words that the gates opened in a run of which these events were told.
pub(crate) fn learned_words(alloc: Global, events: &[Event]) -> Result<Vec<u64>, AllocError>
    ensures { IfOk result (λ learned. learned.items ≡ learned_of events.now) }
{
    let mut learned = Vec::new(alloc);
    for event in events {
        push_learned(alloc, &mut learned, event)?;
    }
    Ok(learned)
}
