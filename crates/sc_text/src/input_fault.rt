ghost use Rattle.std.specs.Prelude.{◌≡◌, Some};
ghost use Rattle.sc_text.specs.Fault.{field_word, input_fault_text};

use std::fmt;

/// A field of an entry in an input file.
#[derive(Clone, Copy)]
pub enum EntryField {
    Name,
    Domain,
    Type,
    Value,
    Shape,
    Share,
}

impl EntryField {
    /// The field's name in the file.
    #[tactic(auto, unfolding(crate::specs::Fault::field_word))]
    pub fn word(self) -> &'static str
        ensures { result.now ≡ field_word self }
    {
        match self {
            EntryField::Name => "name",
            EntryField::Domain => "domain",
            EntryField::Type => "type",
            EntryField::Value => "value",
            EntryField::Shape => "shape",
            EntryField::Share => "share",
        }
    }
}

/// Writes the field's name.
impl fmt::Display for EntryField {
    ghost output = { λ field. Some (field_word field) };

    fn fmt<W: fmt::Write>(&self, f: &mut fmt::Formatter<W>) -> fmt::Result {
        f.write_str(self.word())
    }
}

/// What is wrong with an input, public or share file. Entries count from 0.
#[derive(Clone, Copy)]
pub enum InputFault {
    /// I1: the file is no JSON.
    NotJson,
    /// I2: there is no list `inputs`.
    NoInputs,
    /// I2: a field of an entry is missing or wrong.
    BadField { entry: u64, field: EntryField },
    /// I2: the four lengths of a share file are missing or wrong.
    BadLens,
    /// I2: the miner of a share file is missing or another.
    BadMiner,
    /// I3: an entry has too many elements.
    TooMany { entry: u64 },
}

/// Writes the fault's code and what it is about, as in `I2 entry 0 value`.
impl fmt::Display for InputFault {
    ghost output = { λ fault. Some (input_fault_text fault) };

    #[tactic(auto, unfolding(crate::specs::Fault::input_fault_text))]
    fn fmt<W: fmt::Write>(&self, f: &mut fmt::Formatter<W>) -> fmt::Result {
        match self {
            InputFault::NotJson => f.write_str("I1"),
            InputFault::NoInputs => f.write_str("I2 inputs"),
            InputFault::BadField { entry, field } => write!(f, "I2 entry {entry} {field}"),
            InputFault::BadLens => f.write_str("I2 lens"),
            InputFault::BadMiner => f.write_str("I2 miner"),
            InputFault::TooMany { entry } => write!(f, "I3 entry {entry}"),
        }
    }
}
