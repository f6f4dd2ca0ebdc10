// How far the text of a view was read.
ghost use Rattle.std.specs.Prelude.{◌≡◌};
ghost use Rattle.view_reader.specs.Places.{is_heading, at_inputs, is_messages, before_end};

use proto_core::Number;
use sc_text::End;

/// How far the text of a view was read, and whose view it is.
#[derive(Clone, Copy)]
pub enum Place {
    /// The heading comes next.
    Heading,
    /// Inputs or the words drawn come next.
    Inputs(Number),
    /// Messages, openings or the end come next.
    Messages(Number),
    /// Openings or the end come next.
    Openings(Number),
    /// All was read.
    Whole(Number, End),
}

impl Place {
    /// Whether the heading comes next.
    pub fn is_heading(self) -> bool
        ensures { result ≡ is_heading self }
    {
        matches!(self, Place::Heading)
    }

    /// Whose view it is, where inputs or the words drawn come next.
    pub fn at_inputs(self) -> Option<Number>
        ensures { result ≡ at_inputs self }
    {
        match self {
            Place::Inputs(miner) => Some(miner),
            _ => None,
        }
    }

    /// Whether messages may come next.
    pub fn is_messages(self) -> bool
        ensures { result ≡ is_messages self }
    {
        matches!(self, Place::Messages(_))
    }

    /// Whose view it is, where openings or the end may come next.
    pub fn before_end(self) -> Option<Number>
        ensures { result ≡ before_end self }
    {
        match self {
            Place::Messages(miner) | Place::Openings(miner) => Some(miner),
            _ => None,
        }
    }
}
