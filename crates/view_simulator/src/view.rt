// The view of what a miner sees.
ghost use Rattle.std.specs.Prelude.{◌≡◌, [], ◌++◌, Some, IfOk, OnOk, ◌∷◌};
ghost use Rattle.clear_eval.specs.Reports.{report_seen};
ghost use Rattle.program_views.specs.Views.{openings, view_with};
ghost use Rattle.view_simulator.specs.Making.{seen_of};

use crate::made::Made;
use clear_eval::Report;
use program_views::{input_shares, received};
use proto_core::Number;
use sc_text::{Elements, Event};
use std::alloc::{AllocError, Global};
use view_text::View;

// The elements that were opened, if any were.
fn push_opening(alloc: Global, opened: &mut Vec<Elements>, event: &Event) -> Result<(), AllocError>
    ensures { OnOk result (opened.new.items ≡ opened.old.items ++ openings (event.now ∷ [])) }
{
    match event {
        Event::Open(elements) => {
            let elements = elements.as_slice().to_vec(alloc)?;
            opened.push(Elements::from_vec(elements))?;
            Ok(())
        }
        Event::Publish(_, _) | Event::Hand(_, _, _) => Ok(()),
    }
}

/// What was opened, opening by opening.
fn openings(alloc: Global, events: &[Event]) -> Result<Vec<Elements>, AllocError>
    ensures { IfOk result (λ opened. opened.items ≡ openings events.now) }
{
    let mut opened = Vec::new(alloc);
    for event in events {
        push_opening(alloc, &mut opened, event)?;
    }
    Ok(opened)
}

/// The view of a miner that sees this of a run with this report.
pub(crate) fn view_of(
    alloc: Global,
    miner: Number,
    made: Made,
    report: &Report,
) -> Result<View, AllocError>
    ensures { IfOk result (λ view. view_with miner (seen_of made) (report_seen report.now) ≡ Some view) }
{
    let Made { inputs, drew, got } = made;
    let inputs = input_shares(alloc, &inputs)?;
    let got = received(alloc, got)?;
    let opened = openings(alloc, &report.events)?;
    Ok(View::new(miner, inputs, drew, got, opened, report.end))
}
