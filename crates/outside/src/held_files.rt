// What a store held at a moment.
ghost use Rattle.std.specs.Prelude.{◌≡◌, None, Some, map};
ghost use Rattle.std.specs.FinMap.{from_entries};
ghost use Rattle.outside.specs.HeldFiles.{held_in, pair_of};

/// A file as it was at a moment.
#[derive(Debug, Drop)]
pub(crate) struct HeldFile {
    pub path: String,
    pub bytes: Vec<u8>,
}

/// What a store of files held at a moment, where it tells that.
#[derive(Debug, Drop)]
pub struct HeldFiles {
    files: Option<Vec<HeldFile>>,
}

impl HeldFiles {
    /// The store doesn't tell what it held.
    pub fn untold() -> Self
        ensures { held_in result ≡ None }
    {
        HeldFiles { files: None }
    }

    // These are the files that the store held.
    pub(crate) fn told(files: Vec<HeldFile>) -> Self
        ensures { held_in result ≡ Some (from_entries (map pair_of files.items)) }
    {
        HeldFiles { files: Some(files) }
    }
}
