// What is told, place by place.
ghost use Rattle.std.specs.Prelude.{◌≡◌, ◌++◌, IfOk, OnOk};
ghost use Rattle.client_view.specs.Views.{sightings};
ghost use Rattle.client_runs.specs.inner.Steps.{seen_at, given_after};

use client_text::{Given, Sighting};
use sc_text::{Elements, Event};
use std::alloc::{AllocError, Global};

/// The same elements.
fn same_elements(alloc: Global, elements: &Elements) -> Result<Elements, AllocError>
    ensures { IfOk result (λ copy. copy ≡ elements.now) }
{
    Ok(Elements::from_vec(elements.as_slice().to_vec(alloc)?))
}

/// The same shares.
fn same_given(alloc: Global, given: &Given) -> Result<Given, AllocError>
    ensures { IfOk result (λ copy. copy ≡ given.now) }
{
    let first = given.first.as_slice().to_vec(alloc)?;
    let second = given.second.as_slice().to_vec(alloc)?;
    let third = given.third.as_slice().to_vec(alloc)?;
    Ok(Given {
        first,
        second,
        third,
    })
}

/// What is seen at one event, after what was seen before; the answer is what is left of the shares.
fn push_seen<'g>(
    alloc: Global,
    seen: &mut Vec<Sighting>,
    event: &Event,
    given: &'g [Given],
) -> Result<&'g [Given], AllocError>
    ensures seen { OnOk result (seen.new.items ≡ seen.old.items ++ seen_at event.now given.now) }
    ensures left { IfOk result (λ left. left.now ≡ given_after event.now given.now) }
{
    match event {
        Event::Open(elements) => {
            seen.push(Sighting::Opened(same_elements(alloc, elements)?))?;
            Ok(given)
        }
        Event::Publish(name, elements) => {
            let name = name.copy(alloc)?;
            seen.push(Sighting::Said(name, same_elements(alloc, elements)?))?;
            Ok(given)
        }
        Event::Hand(name, _, elements) => match given.split_first() {
            None => Ok(given),
            Some((first, left)) => {
                let name = name.copy(alloc)?;
                let first = same_given(alloc, first)?;
                seen.push(Sighting::Got(name, first, same_elements(alloc, elements)?))?;
                Ok(left)
            }
        },
    }
}

/// The events of a run, each that hands over with the next of these shares.
pub fn sightings(
    alloc: Global,
    events: &[Event],
    given: &[Given],
) -> Result<Vec<Sighting>, AllocError>
    ensures { IfOk result (λ seen. seen.items ≡ sightings events.now given.now) }
{
    let mut seen = Vec::new(alloc);
    let mut left = given;
    for event in events {
        left = push_seen(alloc, &mut seen, event, left)?;
    }
    Ok(seen)
}
