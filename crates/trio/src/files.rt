// Three files of texts that are put together.
ghost use Rattle.trio.specs.Answers.{TextRead, TextsRead};
ghost use Rattle.proto_core.specs.Parties.{of_three};

use crate::join_err::JoinErr;
use crate::joined::Joined;
use crate::joining::join;
use miner_text::{MinerLine, TextErr, read};
use outside::{FileErr, Files};
use proto_core::Number;
use std::alloc::Global;

/// The lines of a miner's text in a file.
fn read_text<F: Files>(
    alloc: Global,
    path: &str,
    miner: Number,
    files: &mut F,
) -> Result<Vec<MinerLine>, JoinErr>
    ensures { TextRead (F.state files.old) (F.state files.new) path.now miner result }
{
    let bytes = match files.read(alloc, path) {
        Ok(bytes) => bytes,
        Err(FileErr::Failed) => return Err(JoinErr::File { miner }),
        Err(FileErr::Memory) => return Err(JoinErr::Memory),
    };
    match read(alloc, &bytes) {
        Ok(lines) => Ok(lines),
        Err(TextErr::BadText { line }) => Err(JoinErr::BadText { miner, line }),
        Err(TextErr::Memory) => Err(JoinErr::Memory),
    }
}

/// Reads the texts of three miners from their files, one after another, and puts them together, as `join` does.
///
/// `File` says that a file could not be read, `BadText` which line of a text is wrong, of the first miner of which one holds.
pub fn join_files<F: Files>(
    alloc: Global,
    first: &str,
    second: &str,
    third: &str,
    files: &mut F,
) -> Result<Joined, JoinErr>
    ensures { TextsRead (F.state files.old) (F.state files.new) (of_three first.now second.now third.now) result }
{
    let one = read_text(alloc, first, Number::One, files)?;
    let two = read_text(alloc, second, Number::Two, files)?;
    let three = read_text(alloc, third, Number::Three, files)?;
    join(alloc, &one, &two, &three)
}
