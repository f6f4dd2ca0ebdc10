ghost use Rattle.std.specs.Prelude.{◌≡◌, Some, IfOk};
ghost use Rattle.sc_text.specs.Event.{event_line, run_text};

use crate::{ElementKind, Elements, End, Name};
use std::alloc::{AllocError, Global};
use std::fmt;

/// What a run tells the world.
pub enum Event {
    /// A private value was opened.
    Open(Elements),
    /// A public value was published under a name.
    Publish(Name, Elements),
    /// A private value with elements of this kind was handed to the client under a name. Its line is that of a publication.
    Hand(Name, ElementKind, Elements),
}

// Written out, so that an early exit calls this once.
impl Drop for Event {
    fn drop(self) {
        match self {
            Event::Open(_) | Event::Publish(_, _) | Event::Hand(_, _, _) => {}
        }
    }
}

/// Writes the event's line, with its newline.
impl fmt::Display for Event {
    ghost output = { λ event. Some (event_line event) };

    #[tactic(auto, unfolding(crate::specs::Event::event_line))]
    fn fmt<W: fmt::Write>(&self, f: &mut fmt::Formatter<W>) -> fmt::Result {
        match self {
            Event::Open(opened) => writeln!(f, "open{opened}"),
            Event::Publish(name, published) => {
                let name = name.as_str();
                writeln!(f, "publish {name}{published}")
            }
            Event::Hand(name, _, handed) => {
                let name = name.as_str();
                writeln!(f, "publish {name}{handed}")
            }
        }
    }
}

/// The text of a run: a line for each event in order, then the line of its end.
#[tactic(auto, unfolding(crate::specs::Event::run_text))]
pub fn run_text(alloc: Global, events: &[Event], end: &End) -> Result<Vec<u8>, AllocError>
    ensures { IfOk result (λ text. text.items ≡ run_text events.now end.now) }
{
    let mut text = String::new(alloc);
    for event in events {
        write!(text, "{event}")?;
    }
    write!(text, "{end}")?;
    Ok(text.into_bytes())
}
