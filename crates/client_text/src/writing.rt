// The text of the client's view.
ghost use Rattle.std.specs.Prelude.{◌≡◌, Some, IfOk};
ghost use Rattle.client_text.specs.Text.{from_line, client_bytes};

use crate::seen::{ClientView, Sighting};
use proto_core::Number;
use sc_text::Name;
use std::alloc::{AllocError, Global};
use std::fmt;

/// A miner's share of a value that was handed over under a name.
#[derive(Clone, Copy)]
struct ShareLine<'a> {
    miner: Number,
    name: &'a Name,
    words: &'a [u64],
}

/// Writes the line, with its newline.
impl<'a> fmt::Display for ShareLine<'a> {
    ghost output = { λ line. Some (from_line line.miner line.name.now line.words.now) };

    #[tactic(auto, unfolding(crate::specs::Text::from_line))]
    fn fmt<W: fmt::Write>(&self, f: &mut fmt::Formatter<W>) -> fmt::Result {
        let miner = self.miner;
        let name = self.name.as_str();
        write!(f, "from {miner} {name}")?;
        for word in self.words {
            write!(f, " {word}")?;
        }
        writeln!(f, "")
    }
}

/// Writes the lines of what was seen at one place, each with its newline.
impl fmt::Display for Sighting {
    ghost use Rattle.client_text.specs.Text.{sighting_bytes};

    ghost output = { λ sighting. Some (sighting_bytes sighting) };

    #[tactic(auto, unfolding(crate::specs::Text::sighting_bytes, sc_text::specs::Event::event_line))]
    fn fmt<W: fmt::Write>(&self, f: &mut fmt::Formatter<W>) -> fmt::Result {
        match self {
            Sighting::Opened(opened) => writeln!(f, "open{opened}"),
            Sighting::Said(name, published) => {
                let name = name.as_str();
                writeln!(f, "publish {name}{published}")
            }
            Sighting::Got(name, given, handed) => {
                let first = ShareLine {
                    miner: Number::One,
                    name,
                    words: &given.first,
                };
                let second = ShareLine {
                    miner: Number::Two,
                    name,
                    words: &given.second,
                };
                let third = ShareLine {
                    miner: Number::Three,
                    name,
                    words: &given.third,
                };
                let name = name.as_str();
                writeln!(f, "{first}{second}{third}publish {name}{handed}")
            }
        }
    }
}

/// The text of the client's view.
#[tactic(auto, unfolding(crate::specs::Text::client_bytes))]
pub fn write(alloc: Global, view: &ClientView) -> Result<Vec<u8>, AllocError>
    ensures { IfOk result (λ text. text.items ≡ client_bytes view.now) }
{
    let mut text = String::new(alloc);
    let end = view.end;
    writeln!(text, "client")?;
    for sighting in view.sightings.as_slice() {
        write!(text, "{sighting}")?;
    }
    write!(text, "{end}")?;
    Ok(text.into_bytes())
}
