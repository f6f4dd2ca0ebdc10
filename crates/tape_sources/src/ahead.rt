// Words of one party's tape that were read ahead of its draws.
ghost use Rattle.std.specs.Prelude.{◌≡◌, ◌+◌, ◌*◌, ◌^◌, ◌<◌, ◌≤◌, [], true, length, take, drop, OnOk, OnErr, IfSome};
ghost use Rattle.byteorder.specs.Endian.{IsRead, little_number};
ghost use Rattle.outside.specs.Causes.{HasLinkCause, IsSteadyLink};
ghost use Rattle.outside.specs.Files.{OnlyRead, SameSizes};
ghost use Rattle.tape_file.specs.Format.{words_at};
ghost use Rattle.tape_sources.specs.FileTapes.{IsSizedTo, IsAhead, file_in};

use crate::file_words::{MOST_WORDS, fill, read_words};
use byteorder::{ByteOrder, LittleEndian};
use outside::{Failed, Files};
use std::marker::Model;

/// How many words are at least drawn at once that are read where they are to go, and not ahead.
const LARGE: usize = 256;

/// Bytes of a file that were read and not taken. Contracts see these.
#[derive(Drop)]
pub(crate) struct Ahead {
    bytes: [u8; 8 * MOST_WORDS],
    // Where in `bytes` they begin and end.
    from: usize,
    to: usize,
}

impl Model for Ahead {
    ghost use Rattle.std.specs.Prelude.{◌≤◌, ℕ, List, slice_range};

    ghost Value = { List ℕ };

    ghost view = { λ a. slice_range a.bytes a.from a.to };

    ghost invariant = { λ a. (a.from ≤ a.to) × (a.to ≤ 4096) };
}

impl Ahead {
    /// Nothing was read.
    pub fn new() -> Self
        ensures { result ≡ [] }
    {
        Ahead {
            bytes: [0; 8 * MOST_WORDS],
            from: 0,
            to: 0,
        }
    }

    /// How many bytes there are.
    fn len(&self) -> usize
        ensures { result ≡ length self.now }
    {
        self.to - self.from
    }

    /// Lets go all.
    fn clear(&mut self)
        ensures { self.new ≡ [] }
    {
        self.from = 0;
        self.to = 0;
    }

    /// Reads so many bytes of the file from a place on, in the place of those that there are. After an error there are none.
    fn read<F: Files>(
        &mut self,
        files: &mut F,
        path: &str,
        from: u64,
        count: usize,
    ) -> Result<(), Failed>
        requires few { count ≤ 4096 }
        requires sized { IsSizedTo (F.state files.old) path.now (from + count) }
        requires fits { from + count < 2 ^ 64 }
        ensures len { OnOk result (length self.new ≡ count) }
        ensures ok { OnOk result ((F.state files.old).told ≡ true → IsAhead (file_in (F.state files.old) path.now) from self.new) }
        ensures err { OnErr result (self.new ≡ []) }
        ensures only { OnlyRead (F.state files.old) (F.state files.new) }
        ensures sizes { SameSizes (F.state files.old) (F.state files.new) }
        ensures cause { HasLinkCause (F.state files.old).faults (F.state files.new).faults result }
        ensures steady { (F.state files.old).steady ≡ true →
            IsSteadyLink (F.state files.old).faults (F.state files.new).faults result ((F.state files.old).told ≡ true →
            IfSome (file_in (F.state files.old) path.now) (λ all. length all < from + count)) }
    {
        self.from = 0;
        self.to = 0;
        fill(files, path, from, &mut self.bytes[..count])?;
        self.to = count;
        Ok(())
    }

    /// So many bytes, or more, are there after it: where they aren't, as many words are read as have room, and are left.
    fn make_ready<F: Files>(
        &mut self,
        files: &mut F,
        path: &str,
        from: u64,
        left: u64,
        wanted: usize,
    ) -> Result<(), Failed>
        requires few { wanted ≤ 512 }
        requires enough { wanted ≤ left }
        requires sized { IsSizedTo (F.state files.old) path.now (from + 8 * left) }
        requires fits { from + 8 * left < 2 ^ 64 }
        requires ahead { (F.state files.old).told ≡ true → IsAhead (file_in (F.state files.old) path.now) from self.old }
        ensures there { OnOk result (8 * wanted ≤ length self.new) }
        ensures ok { OnOk result ((F.state files.old).told ≡ true → IsAhead (file_in (F.state files.old) path.now) from self.new) }
        ensures err { OnErr result (self.new ≡ []) }
        ensures only { OnlyRead (F.state files.old) (F.state files.new) }
        ensures sizes { SameSizes (F.state files.old) (F.state files.new) }
        ensures cause { HasLinkCause (F.state files.old).faults (F.state files.new).faults result }
        ensures steady { (F.state files.old).steady ≡ true →
            IsSteadyLink (F.state files.old).faults (F.state files.new).faults result ((F.state files.old).told ≡ true →
            IfSome (file_in (F.state files.old) path.now) (λ all. length all < from + 8 * left)) }
    {
        if 8 * wanted <= self.len() {
            return Ok(());
        }
        let count = left.min(MOST_WORDS as u64) as usize;
        self.read(files, path, from, 8 * count)
    }

    /// The first words of what is there, which are let go.
    fn give(&mut self, into: &mut [u64])
        requires { 8 * length into.old ≤ length self.old }
        ensures words { IsRead little_number 8 (take (8 * length into.old) self.old) into.new }
        ensures rest { self.new ≡ drop (8 * length into.old) self.old }
    {
        let end = self.from + 8 * into.len();
        LittleEndian::read_u64_into(&self.bytes[self.from..end], into);
        self.from = end;
    }

    /// The next words of a party's tape of which so many are left, from a place of the file on. Where few are drawn, as many are read ahead as
    /// have room. After an error there is nothing ahead.
    pub fn take<F: Files>(
        &mut self,
        files: &mut F,
        path: &str,
        from: u64,
        left: u64,
        into: &mut [u64],
    ) -> Result<(), Failed>
        requires enough { length into.old ≤ left }
        requires sized { IsSizedTo (F.state files.old) path.now (from + 8 * left) }
        requires fits { from + 8 * left < 2 ^ 64 }
        requires ahead { (F.state files.old).told ≡ true → IsAhead (file_in (F.state files.old) path.now) from self.old }
        ensures ok { OnOk result ((F.state files.old).told ≡ true → IfSome (file_in (F.state files.old) path.now)
            (λ all. into.new ≡ words_at from (length into.new) all)) }
        ensures ahead { OnOk result ((F.state files.old).told ≡ true →
            IsAhead (file_in (F.state files.old) path.now) (from + 8 * length into.new) self.new) }
        ensures err { OnErr result (self.new ≡ []) }
        ensures only { OnlyRead (F.state files.old) (F.state files.new) }
        ensures sizes { SameSizes (F.state files.old) (F.state files.new) }
        ensures cause { HasLinkCause (F.state files.old).faults (F.state files.new).faults result }
        ensures steady { (F.state files.old).steady ≡ true →
            IsSteadyLink (F.state files.old).faults (F.state files.new).faults result ((F.state files.old).told ≡ true →
            IfSome (file_in (F.state files.old) path.now) (λ all. length all < from + 8 * left)) }
    {
        if into.len() >= LARGE {
            self.clear();
            return read_words(files, path, from, into);
        }
        self.make_ready(files, path, from, left, into.len())?;
        self.give(into);
        Ok(())
    }
}
