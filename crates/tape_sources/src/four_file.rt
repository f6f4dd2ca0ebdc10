// The tapes in a file, as a source.
ghost use Rattle.std.specs.Prelude.{◌≡◌, ◌+◌, ◌*◌, ◌^◌, ◌<◌, ◌≤◌, [], ◌∷◌, true, Some};
ghost use Rattle.std.proofs.Props.{props};
ghost use Rattle.tape_sources.specs.FileTapes.{AreAhead, AreWithin, file_in, words_state};

use crate::ahead::Ahead;
use crate::lengths::TapeLengths;
use outside::{Failed, Files, TapeSource};

/// The four tapes in a file of a store, which is read where words are drawn, and a little ahead. It fails only where the store counts a fault.
#[derive(Drop)]
pub struct FileTapes<'a, F: Files> {
    files: &'a mut F,
    path: &'a str,
    size: u64,
    // Of each party, where in the file its next word stands, and how many are left.
    next: [u64; 4],
    left: [u64; 4],
    // Of each party, what was read of the words that are left.
    ahead: [Ahead; 4],
    ghost sized: { (F.state files.now).sized path.now ≡ Some size },
    ghost within: { AreWithin size next left },
    ghost fits: { size < 2 ^ 64 },
    ghost read: { (F.state files.now).told ≡ true → AreAhead (file_in (F.state files.now) path.now) next ahead } by { Prim.hlevel props },
}

// Nothing was read ahead.
fn none_ahead() -> [Ahead; 4]
    ensures { result ≡ [] ∷ [] ∷ [] ∷ [] ∷ [] }
{
    [Ahead::new(), Ahead::new(), Ahead::new(), Ahead::new()]
}

impl<'a, F: Files> FileTapes<'a, F> {
    ghost use Rattle.tape_sources.specs.Opening.{OpensFour, OpensOne};

    /// The tapes of a file of which these lengths were read. No word was drawn yet.
    pub fn new(files: &'a mut F, path: &'a str, lengths: TapeLengths) -> Self
        requires { (F.state files.old).sized path.now ≡ Some lengths.size }
        ensures same { result.files.ghost_name ≡ files.entry.ghost_name }
        ensures now { result.files.now ≡ files.old }
        ensures opened { OpensFour lengths (F.state files.old) path.now
            (words_state (F.state result.files.now) result.files.ghost_name result.path.now result.size result.next result.left) }
    {
        let second = 32 + 8 * lengths.dealer;
        let third = 32 + 8 * (lengths.dealer + lengths.miner1);
        let fourth = 32 + 8 * (lengths.dealer + lengths.miner1 + lengths.miner2);
        FileTapes {
            files,
            path,
            size: lengths.size,
            next: [32, second, third, fourth],
            left: [
                lengths.dealer,
                lengths.miner1,
                lengths.miner2,
                lengths.miner3,
            ],
            ahead: none_ahead(),
        }
    }

    /// One party's tape of so many words in a file of its own, of which this size was read.
    pub(crate) fn of_one(files: &'a mut F, path: &'a str, party: u8, words: u64, size: u64) -> Self
        requires party { party ≤ 3 }
        requires exact { size ≡ 8 + 8 * words }
        requires sized { (F.state files.old).sized path.now ≡ Some size }
        ensures same { result.files.ghost_name ≡ files.entry.ghost_name }
        ensures now { result.files.now ≡ files.old }
        ensures opened { OpensOne party words size (F.state files.old) path.now
            (words_state (F.state result.files.now) result.files.ghost_name result.path.now result.size result.next result.left) }
    {
        let mut next = [0; 4];
        let mut left = [0; 4];
        next[party as usize] = 8;
        left[party as usize] = words;
        FileTapes {
            files,
            path,
            size,
            next,
            left,
            ahead: none_ahead(),
        }
    }

    /// The store, once no more words are drawn.
    pub fn into_files(self) -> &'a mut F
        ensures same { result.ghost_name ≡ self.entry.files.ghost_name }
        ensures now { result.now ≡ self.entry.files.now }
    {
        self.files
    }
}

impl<'a, F: Files> TapeSource for FileTapes<'a, F> {
    ghost state = { λ s. words_state (F.state s.files.now) s.files.ghost_name s.path.now s.size s.next s.left };

    fn left(&self, party: u8) -> u64 {
        self.left[party as usize]
    }

    fn take(&mut self, party: u8, into: &mut [u64]) -> Result<(), Failed> {
        let at = party as usize;
        let from = self.next[at];
        let left = self.left[at];
        let path = self.path;
        let ahead = &mut self.ahead;
        let files = &mut *self.files;
        ahead[at].take(files, path, from, left, into)?;
        let count = into.len() as u64;
        self.next[at] = from + 8 * count;
        self.left[at] -= count;
        Ok(())
    }
}
