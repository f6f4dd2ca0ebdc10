// The last lines of a view.
ghost use Rattle.std.specs.Prelude.{◌≡◌, ◌≤◌, length, drop};
ghost use Rattle.audit_steps.specs.Ends.{is_first_opening, same_element, same_elements, same_end, same_ending, wrong_end_at};

use sc_text::{Element, Elements, End, Ending, Event};

/// Whether two elements are the same.
fn same_element(element: Element, other: Element) -> bool
    ensures { result ≡ same_element element other }
{
    match (element, other) {
        (Element::Word(word), Element::Word(same)) => word == same,
        (Element::Negative(below), Element::Negative(same)) => below == same,
        (Element::Truth(truth), Element::Truth(same)) => truth == same,
        _ => false,
    }
}

/// Whether two lists of elements are the same.
fn same_elements(elements: &[Element], others: &[Element]) -> bool
    ensures { result ≡ same_elements elements.now others.now }
{
    if elements.len() != others.len() {
        return false;
    }
    for place in 0..elements.len() {
        if !same_element(elements[place], others[place]) {
            return false;
        }
    }
    true
}

/// Whether two runs ended in the same way.
fn same_ending(ending: Ending, other: Ending) -> bool
    ensures { result ≡ same_ending ending other }
{
    match (ending, other) {
        (Ending::Done, Ending::Done) | (Ending::Budget, Ending::Budget) => true,
        (
            Ending::Trap { kind, line },
            Ending::Trap {
                kind: same,
                line: at,
            },
        ) => { kind.word() == same.word() && line == at }
        (
            Ending::Tape { owner, need, have },
            Ending::Tape {
                owner: same,
                need: wanted,
                have: there,
            },
        ) => owner.digit() == same.digit() && (need == wanted && have == there),
        _ => false,
    }
}

/// Whether two ends are the same, at the same cost.
fn same_end(end: End, other: End) -> bool
    ensures { result ≡ same_end end other }
{
    same_ending(end.how, other.how) && end.cost == other.cost
}

/// Whether the opening of this place, if there is one, is of these elements.
fn is_opening(opened: &[Elements], place: usize, elements: &Elements) -> bool
    requires { place ≤ length opened.now }
    ensures { result ≡ is_first_opening elements.now (drop place opened.now) }
{
    if place == opened.len() {
        return false;
    }
    same_elements(elements.as_slice(), opened[place].as_slice())
}

/// The place of the first line that isn't as events and an end tell, among the lines of these openings and the line of the end that is
/// shown after them.
pub fn wrong_end_at(events: &[Event], end: End, opened: &[Elements], shown: End) -> Option<u64>
    ensures { result ≡ wrong_end_at events.now end shown opened.now }
{
    let mut taken = 0;
    for place in 0..events.len() {
        match &events[place] {
            Event::Open(elements) => {
                if !is_opening(opened, taken, elements) {
                    return Some(taken as u64);
                }
                taken += 1;
            }
            Event::Publish(_, _) => {}
            Event::Hand(_, _, _) => {}
        }
    }
    if taken == opened.len() && same_end(end, shown) {
        None
    } else {
        Some(taken as u64)
    }
}
