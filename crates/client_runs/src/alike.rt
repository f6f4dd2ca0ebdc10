// What two runs hand over, and where they differ.
ghost use Rattle.std.specs.Prelude.{◌≡◌, ◌++◌, [], ◌∷◌, IfOk, IfErr, OnOk};
ghost use Rattle.client_view.specs.Views.{published_of};
ghost use Rattle.client_runs.specs.inner.Steps.{RunsAgree, RunsRefuse};

use crate::twin_err::TwinErr;
use clear_eval::Report;
use sc_text::Event;
use std::alloc::{AllocError, Global};
use tape_twin::first_difference;
use view_reader::push_words;

/// The words of what an event hands over, after those that are there.
fn push_handed(published: &mut Vec<u64>, event: &Event) -> Result<(), AllocError>
    ensures { OnOk result (published.new.items ≡ published.old.items ++ published_of (event.now ∷ [])) }
{
    match event {
        Event::Hand(_, _, elements) => push_words(published, elements.as_slice()),
        Event::Open(_) | Event::Publish(_, _) => Ok(()),
    }
}

/// The words of what is handed over, value after value.
pub fn published_of(alloc: Global, events: &[Event]) -> Result<Vec<u64>, AllocError>
    ensures { IfOk result (λ published. published.items ≡ published_of events.now) }
{
    let mut published = Vec::new(alloc);
    for event in events {
        push_handed(&mut published, event)?;
    }
    Ok(published)
}

/// What differs to the client in two runs, if anything does: the first word that is opened, else the first that is handed over.
pub(crate) fn run_difference(alloc: Global, one: &Report, other: &Report) -> Result<(), TwinErr>
    ensures same { OnOk result (RunsAgree one.now other.now) }
    ensures differ { IfErr result (RunsRefuse one.now other.now) }
{
    match first_difference(&one.opened, &other.opened) {
        Some((place, first, second)) => {
            return Err(TwinErr::OpenedDiffers {
                place,
                first,
                second,
            });
        }
        None => {}
    }
    let published = published_of(alloc, &one.events)?;
    let others = published_of(alloc, &other.events)?;
    match first_difference(&published, &others) {
        Some((place, first, second)) => Err(TwinErr::PublishedDiffers {
            place,
            first,
            second,
        }),
        None => Ok(()),
    }
}
