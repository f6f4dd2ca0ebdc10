// One party's tape in a file of its own, as a source.
ghost use Rattle.std.specs.Prelude.{◌≡◌, ◌+◌, ◌*◌, ◌≤◌, Some};
ghost use Rattle.tape_sources.specs.FileTapes.{words_state};

use crate::four_file::FileTapes;
use outside::{Failed, Files, TapeSource};

/// One party's tape in a file of its own, which is read where words are drawn; of the others there are none. It fails only where the
/// store counts a fault.
#[derive(Drop)]
pub struct OwnTape<'a, F: Files> {
    tapes: FileTapes<'a, F>,
}

impl<'a, F: Files> OwnTape<'a, F> {
    ghost use Rattle.tape_sources.specs.Opening.{OpensOne};

    /// This party's tape of so many words in a file of which this size was read. No word was drawn yet.
    pub fn new(files: &'a mut F, path: &'a str, party: u8, words: u64, size: u64) -> Self
        requires party { party ≤ 3 }
        requires exact { size ≡ 8 + 8 * words }
        requires sized { (F.state files.old).sized path.now ≡ Some size }
        ensures same { result.tapes.files.ghost_name ≡ files.entry.ghost_name }
        ensures now { result.tapes.files.now ≡ files.old }
        ensures opened { OpensOne party words size (F.state files.old) path.now (words_state (F.state result.tapes.files.now)
            result.tapes.files.ghost_name result.tapes.path.now result.tapes.size result.tapes.next result.tapes.left) }
    {
        OwnTape {
            tapes: FileTapes::of_one(files, path, party, words, size),
        }
    }

    /// The store, once no more words are drawn.
    pub fn into_files(self) -> &'a mut F
        ensures same { result.ghost_name ≡ self.entry.tapes.files.ghost_name }
        ensures now { result.now ≡ self.entry.tapes.files.now }
    {
        let OwnTape { tapes } = self;
        tapes.into_files()
    }
}

impl<'a, F: Files> TapeSource for OwnTape<'a, F> {
    ghost state = { λ s. words_state (F.state s.tapes.files.now) s.tapes.files.ghost_name s.tapes.path.now s.tapes.size s.tapes.next s.tapes.left };

    fn left(&self, party: u8) -> u64 {
        self.tapes.left(party)
    }

    fn take(&mut self, party: u8, into: &mut [u64]) -> Result<(), Failed> {
        self.tapes.take(party, into)
    }
}
