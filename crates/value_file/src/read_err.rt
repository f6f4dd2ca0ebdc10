// Why a file is not read.
ghost use Rattle.std.specs.Prelude.{◌≡◌};
ghost use Rattle.value_file.specs.declared.read_err.ReadErr.TheVariants.{Memory};

use std::alloc::AllocError;

/// A field of an input file, of a public file or of a share file.
#[derive(Clone, Copy, Debug)]
pub enum Field {
    /// The list of entries, at top.
    Inputs,
    /// An entry's name.
    Name,
    /// Whether an entry is public or private.
    Domain,
    /// The data type of an entry's value.
    Type,
    /// An entry's value.
    Value,
    /// The shape of a private entry of a public file or a share file.
    Shape,
    /// The words of a private entry of a share file.
    Share,
    /// The lengths of the tapes, at top of a share file.
    Lens,
    /// The miner whose share file it is, at top.
    Miner,
}

/// Why a file is not read. Entries count from 0.
#[derive(Clone, Copy, Debug)]
pub enum ReadErr {
    /// The bytes are no JSON text in UTF-8.
    Syntax,
    /// The field is missing or isn't of its form. There is no entry for a field at top.
    BadField { entry: Option<u64>, name: Field },
    /// The entry has more than 65,536 elements.
    TooLong { entry: u64 },
    /// Memory ran short.
    Memory,
}

impl From<AllocError> for ReadErr {
    ghost from_gives = { λ _ e. e ≡ Memory };

    fn from(_: AllocError) -> Self {
        ReadErr::Memory
    }
}
