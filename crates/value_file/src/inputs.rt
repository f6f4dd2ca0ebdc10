// The inputs of a run.
ghost use Rattle.std.specs.Prelude.{◌≡◌};

use crate::value::{Domain, Value};
use sc_text::Name;
use std::marker::Model;

/// One input of a run: its name, who may know it, and its value.
pub struct Entry {
    pub name: Name,
    pub domain: Domain,
    pub value: Value,
}

// Written out, so that an early exit calls this once.
impl Drop for Entry {
    fn drop(self) {
        let Entry {
            name: _,
            domain: _,
            value: _,
        } = self;
    }
}

/// The inputs of a run, in the order of their file. Clauses see the list of the entries.
pub struct Inputs {
    entries: Vec<Entry>,
}

// Written out, so that an early exit calls this once.
impl Drop for Inputs {
    fn drop(self) {
        let Inputs { entries: _ } = self;
    }
}

impl Model for Inputs {
    ghost use Rattle.std.specs.Prelude.{List};
    ghost use Rattle.value_file.specs.declared.inputs.Entry.{Entry};

    ghost Value = { List Entry };

    ghost view = { λ inputs. inputs.entries.items };
}

impl Inputs {
    /// The inputs of these entries.
    pub fn new(entries: Vec<Entry>) -> Self
        ensures { result ≡ entries.items }
    {
        Inputs { entries }
    }

    /// The entries, in order.
    pub fn entries(&self) -> &[Entry]
        ensures { result.now ≡ self.now }
    {
        &self.entries
    }
}
