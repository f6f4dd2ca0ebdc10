// The text that three miners make together.
ghost use Rattle.std.specs.Prelude.{◌≡◌, string_bytes};
ghost use Rattle.trio.specs.Joining.{Joined as AJoined};

use sc_text::End;
use std::marker::Model;

/// The text of a run, and how it ended.
#[derive(Drop)]
pub struct Joined {
    text: Vec<u8>,
    end: End,
}

impl Model for Joined {
    ghost Value = { AJoined };

    ghost view = { λ j. record { text = j.text.items; end = j.end } };
}

impl Joined {
    /// This text, with this end.
    pub fn new(text: String, end: End) -> Joined
        ensures { result ≡ record { text = string_bytes text; end = end } }
    {
        Joined {
            text: text.into_bytes(),
            end,
        }
    }

    /// The text.
    pub fn text(&self) -> &[u8]
        ensures { result.now ≡ self.now.text }
    {
        &self.text
    }

    /// How the run ended.
    pub fn end(&self) -> End
        ensures { result ≡ self.now.end }
    {
        self.end
    }

    /// The text alone.
    pub fn into_text(self) -> Vec<u8>
        ensures { result.items ≡ self.text }
    {
        self.text
    }
}
