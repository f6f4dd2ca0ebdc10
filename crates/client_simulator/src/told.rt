// The events of a run, with the words that are told.
ghost use Rattle.std.specs.Prelude.{◌≡◌, ◌++◌, [], ◌∷◌, length, map, IfOk, OnOk, option_map};
ghost use Rattle.language_model.specs.Learned.{element_word, elements_words};
ghost use Rattle.language_model.specs.Values.{element_as};
ghost use Rattle.client_view.specs.Views.{told_events, gate_words_of};
ghost use Rattle.client_simulator.specs.inner.Steps.{told_at, left_after};

use gates::{Values, Words};
use input_share::shared_as;
use sc_text::{Element, ElementKind, Elements, Event};
use std::alloc::{AllocError, Global};
use value_file::DataType;
use vector_ops::element_as;
use view_reader::push_words;

/// The same elements.
fn same_elements(alloc: Global, elements: &[Element]) -> Result<Elements, AllocError>
    ensures { IfOk result (λ copy. copy ≡ elements.now) }
{
    Ok(Elements::from_vec(elements.to_vec(alloc)?))
}

/// The words as elements of this kind.
fn told_elements(alloc: Global, kind: ElementKind, words: &[u64]) -> Result<Elements, AllocError>
    ensures { IfOk result (λ told. told ≡ map (element_as kind) words.now) }
{
    let mut told = Elements::new(alloc);
    for word in words {
        told.push(element_as(kind, *word))?;
    }
    Ok(told)
}

/// The event, with the first of the words that are told where it hands over; none where they are too few.
fn told_at(alloc: Global, event: &Event, published: &[u64]) -> Result<Option<Event>, AllocError>
    ensures { IfOk result (λ told. told ≡ told_at event.now published.now) }
{
    match event {
        Event::Open(elements) => {
            let elements = same_elements(alloc, elements.as_slice())?;
            Ok(Some(Event::Open(elements)))
        }
        Event::Publish(name, elements) => {
            let elements = same_elements(alloc, elements.as_slice())?;
            Ok(Some(Event::Publish(name.copy(alloc)?, elements)))
        }
        Event::Hand(name, kind, elements) => {
            let count = elements.as_slice().len();
            if count > published.len() {
                return Ok(None);
            }
            let handed = told_elements(alloc, *kind, published.split_at(count).0)?;
            Ok(Some(Event::Hand(name.copy(alloc)?, *kind, handed)))
        }
    }
}

/// The words that are left after an event.
fn left_after<'p>(event: &Event, published: &'p [u64]) -> &'p [u64]
    ensures { result.now ≡ left_after event.now published.now }
{
    match event {
        Event::Open(_) | Event::Publish(_, _) => published,
        Event::Hand(_, _, elements) => {
            let count = elements.as_slice().len();
            if count > published.len() {
                &[]
            } else {
                published.split_at(count).1
            }
        }
    }
}

/// These events, each that hands over with the next of the words that are told; none where they are too few.
pub(crate) fn told_events(
    alloc: Global,
    events: &[Event],
    published: &[u64],
) -> Result<Option<Vec<Event>>, AllocError>
    ensures { IfOk result (λ told. option_map (λ es. es.items) told ≡ told_events events.now published.now) }
{
    let mut told = Vec::new(alloc);
    let mut left = published;
    for event in events {
        let Some(next) = told_at(alloc, event, left)? else {
            return Ok(None);
        };
        told.push(next)?;
        left = left_after(event, left);
    }
    Ok(Some(told))
}

/// The elements, each as a word: a truth value is 1 or 0.
fn element_words(alloc: Global, elements: &[Element]) -> Result<Vec<u64>, AllocError>
    ensures { IfOk result (λ words. words.items ≡ map element_word elements.now) }
{
    let mut words = Vec::new(alloc);
    push_words(&mut words, elements)?;
    Ok(words)
}

/// The elements of a value as gates have them: numbers in a word each, truth values packed.
fn gate_words(alloc: Global, elements: &[Element]) -> Result<Vec<u64>, AllocError>
    ensures { IfOk result (λ words. words.items ≡ elements_words elements.now) }
{
    let words = element_words(alloc, elements)?;
    match elements.first() {
        Some(Element::Truth(_)) => shared_as(alloc, DataType::Bool, words),
        Some(Element::Word(_) | Element::Negative(_)) | None => Ok(words),
    }
}

/// The gates' words of what an event hands over, after those that are there.
fn push_handed(alloc: Global, words: &mut Values, event: &Event) -> Result<(), AllocError>
    ensures { OnOk result (words.new ≡ words.old ++ gate_words_of (event.now ∷ [])) }
{
    match event {
        Event::Open(_) | Event::Publish(_, _) => Ok(()),
        Event::Hand(_, _, elements) => {
            let handed = gate_words(alloc, elements.as_slice())?;
            words.push(Words::new(handed))?;
            Ok(())
        }
    }
}

/// The gates' words of what events hand over, value by value.
pub(crate) fn gate_words_of(alloc: Global, events: &[Event]) -> Result<Values, AllocError>
    ensures { IfOk result (λ words. words ≡ gate_words_of events.now) }
{
    let mut words = Values::new(alloc);
    for event in events {
        push_handed(alloc, &mut words, event)?;
    }
    Ok(words)
}
