// The entries of a share file.
ghost use Rattle.std.specs.Prelude.{◌≡◌, option_map};
ghost use Rattle.input_share.specs.ShareFile.{words_in};

use sc_text::Name;
use value_file::{DataType, Shape, Value, Words};

/// One miner's share of a private value, in order: a word for each number, or one for each 64 truth values.
pub struct Shared {
    pub data_type: DataType,
    pub shape: Shape,
    pub words: Words,
}

// Written out, so that an early exit calls this once.
impl Drop for Shared {
    fn drop(self) {
        let Shared {
            data_type: _,
            shape: _,
            words: _,
        } = self;
    }
}

/// What a miner has of an input: a public value as it is, a private one as its share.
pub enum Part {
    Public(Value),
    Private(Shared),
}

// Written out, so that an early exit calls this once and doesn't take the part apart.
impl Drop for Part {
    fn drop(self) {
        match self {
            Part::Public(_) | Part::Private(_) => {}
        }
    }
}

impl Part {
    /// The share words, if the part is private.
    pub fn words(&self) -> Option<&[u64]>
        ensures { option_map (λ words. words.now) result ≡ words_in self.now }
    {
        match self {
            Part::Public(_) => None,
            Part::Private(shared) => Some(shared.words.as_slice()),
        }
    }
}

/// One input in a share file.
pub struct ShareEntry {
    pub name: Name,
    pub part: Part,
}

// Written out, so that an early exit calls this once.
impl Drop for ShareEntry {
    fn drop(self) {
        let ShareEntry { name: _, part: _ } = self;
    }
}
