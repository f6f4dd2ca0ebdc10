// Words of 8 bytes each, the lowest byte first, that are read from a file of a store.
ghost use Rattle.std.specs.Prelude.{◌≡◌, ◌+◌, ◌*◌, ◌^◌, ◌<◌, ◌≤◌, true, length, take, drop, OnOk, IfSome};
ghost use Rattle.outside.specs.Causes.{HasLinkCause, IsSteadyLink};
ghost use Rattle.outside.specs.Files.{OnlyRead, SameSizes};
ghost use Rattle.tape_file.specs.Format.{words_at};
ghost use Rattle.tape_sources.specs.FileTapes.{IsSizedTo, file_in};

use byteorder::{ByteOrder, LittleEndian};
use outside::{Failed, Files};

/// How many words are read at once at most.
pub(crate) const MOST_WORDS: usize = 512;

/// Fills the slice with the file's bytes from a place on. A steady store fails only where the file is missing or ends before.
pub(crate) fn fill<F: Files>(
    files: &mut F,
    path: &str,
    from: u64,
    into: &mut [u8],
) -> Result<(), Failed>
    requires sized { IsSizedTo (F.state files.old) path.now (from + length into.old) }
    requires fits { from + length into.old < 2 ^ 64 }
    ensures ok { OnOk result ((F.state files.old).told ≡ true → IfSome (file_in (F.state files.old) path.now)
        (λ all. into.new ≡ take (length into.new) (drop from all))) }
    ensures only { OnlyRead (F.state files.old) (F.state files.new) }
    ensures sizes { SameSizes (F.state files.old) (F.state files.new) }
    ensures cause { HasLinkCause (F.state files.old).faults (F.state files.new).faults result }
    ensures steady { (F.state files.old).steady ≡ true →
        IsSteadyLink (F.state files.old).faults (F.state files.new).faults result ((F.state files.old).told ≡ true →
        IfSome (file_in (F.state files.old) path.now) (λ all. length all < from + length into.old)) }
{
    let mut done = 0;
    while done < into.len() {
        done += files.read_at(path, from + done as u64, &mut into[done..])?;
    }
    Ok(())
}

// The same for few words.
fn read_few<F: Files>(files: &mut F, path: &str, from: u64, into: &mut [u64]) -> Result<(), Failed>
    requires few { length into.old ≤ 512 }
    requires sized { IsSizedTo (F.state files.old) path.now (from + 8 * length into.old) }
    requires fits { from + 8 * length into.old < 2 ^ 64 }
    ensures ok { OnOk result ((F.state files.old).told ≡ true → IfSome (file_in (F.state files.old) path.now)
        (λ all. into.new ≡ words_at from (length into.new) all)) }
    ensures only { OnlyRead (F.state files.old) (F.state files.new) }
    ensures sizes { SameSizes (F.state files.old) (F.state files.new) }
    ensures cause { HasLinkCause (F.state files.old).faults (F.state files.new).faults result }
    ensures steady { (F.state files.old).steady ≡ true →
        IsSteadyLink (F.state files.old).faults (F.state files.new).faults result ((F.state files.old).told ≡ true →
        IfSome (file_in (F.state files.old) path.now) (λ all. length all < from + 8 * length into.old)) }
{
    let mut buffer = [0; 8 * MOST_WORDS];
    let bytes = &mut buffer[..8 * into.len()];
    fill(files, path, from, bytes)?;
    LittleEndian::read_u64_into(bytes, into);
    Ok(())
}

/// Fills the slice with the file's words from a place on. A steady store fails only where the file is missing or ends before.
pub(crate) fn read_words<F: Files>(
    files: &mut F,
    path: &str,
    from: u64,
    into: &mut [u64],
) -> Result<(), Failed>
    requires sized { IsSizedTo (F.state files.old) path.now (from + 8 * length into.old) }
    requires fits { from + 8 * length into.old < 2 ^ 64 }
    ensures ok { OnOk result ((F.state files.old).told ≡ true → IfSome (file_in (F.state files.old) path.now)
        (λ all. into.new ≡ words_at from (length into.new) all)) }
    ensures only { OnlyRead (F.state files.old) (F.state files.new) }
    ensures sizes { SameSizes (F.state files.old) (F.state files.new) }
    ensures cause { HasLinkCause (F.state files.old).faults (F.state files.new).faults result }
    ensures steady { (F.state files.old).steady ≡ true →
        IsSteadyLink (F.state files.old).faults (F.state files.new).faults result ((F.state files.old).told ≡ true →
        IfSome (file_in (F.state files.old) path.now) (λ all. length all < from + 8 * length into.old)) }
{
    let mut done = 0;
    while done < into.len() {
        let count = (into.len() - done).min(MOST_WORDS);
        read_few(
            files,
            path,
            from + 8 * done as u64,
            &mut into[done..done + count],
        )?;
        done += count;
    }
    Ok(())
}
