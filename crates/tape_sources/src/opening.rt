// How a file of tapes is opened: its size and the lengths that stand in it.
ghost use Rattle.std.specs.Prelude.{◌≡◌, ◌+◌, ◌*◌, true, Some, IfOk};
ghost use Rattle.outside.specs.Files.{OnlyRead};
ghost use Rattle.tape_sources.specs.FileTapes.{file_in};
ghost use Rattle.tape_sources.specs.Opening.{ReadsLengths, ReadsLength, HasOpenCause, IsSteadyOpen};

use crate::file_words::read_words;
use crate::lengths::{TapeLengths, lengths_fault, own_length_fault};
use crate::open_err::OpenErr;
use outside::Files;

/// Reads the size and the four lengths of a tape file.
///
/// `BadTape` comes exactly where `tape_file::read` of the whole file answers it, with the same place: lengths are looked at before the
/// size. `Failed` comes only where the store counted a fault.
pub fn read_lengths<F: Files>(files: &mut F, path: &str) -> Result<TapeLengths, OpenErr>
    ensures reads { (F.state files.old).told ≡ true → ReadsLengths (file_in (F.state files.old) path.now) result }
    ensures sized { IfOk result (λ l. (F.state files.new).sized path.now ≡ Some l.size) }
    ensures only { OnlyRead (F.state files.old) (F.state files.new) }
    ensures cause { HasOpenCause (F.state files.old).faults (F.state files.new).faults result }
    ensures steady { (F.state files.old).steady ≡ true → IsSteadyOpen (F.state files.old) (F.state files.new) path.now result }
{
    let size = files.size(path)?;
    if size < 32 {
        return Err(OpenErr::BadTape { place: size });
    }
    let mut words = [0; 4];
    read_words(files, path, 0, &mut words)?;
    if let Some(place) = lengths_fault(words[0], words[1], words[2], words[3], size) {
        return Err(OpenErr::BadTape { place });
    }
    Ok(TapeLengths {
        size,
        dealer: words[0],
        miner1: words[1],
        miner2: words[2],
        miner3: words[3],
    })
}

/// Reads the size of the file of one party's tape, which is to have `wanted` words, and compares it and the length in it.
///
/// `BadTape` comes exactly where `tape_file::read_own` of the whole file answers it, with the same place: the length is looked at
/// before the size. `Failed` comes only where the store counted a fault.
pub fn read_length<F: Files>(files: &mut F, path: &str, wanted: u64) -> Result<u64, OpenErr>
    ensures reads { (F.state files.old).told ≡ true → ReadsLength wanted (file_in (F.state files.old) path.now) result }
    ensures sized { IfOk result (λ size. (F.state files.new).sized path.now ≡ Some size) }
    ensures enough { IfOk result (λ size. size ≡ 8 + 8 * wanted) }
    ensures only { OnlyRead (F.state files.old) (F.state files.new) }
    ensures cause { HasOpenCause (F.state files.old).faults (F.state files.new).faults result }
    ensures steady { (F.state files.old).steady ≡ true → IsSteadyOpen (F.state files.old) (F.state files.new) path.now result }
{
    let size = files.size(path)?;
    if size < 8 {
        return Err(OpenErr::BadTape { place: size });
    }
    let mut words = [0; 1];
    read_words(files, path, 0, &mut words)?;
    if let Some(place) = own_length_fault(wanted, words[0], size) {
        return Err(OpenErr::BadTape { place });
    }
    Ok(size)
}
