// Where the words of a run come from.
ghost use Rattle.std.specs.Prelude.{◌≡◌, ◌∷◌, [], IfOk, IfErr};
ghost use Rattle.command_frame.specs.Reads.{OnlyRead, Gives, StopNames};
ghost use Rattle.command_words.specs.Views.{source_ask};
ghost use Rattle.outside.specs.Files.{file_at};
ghost use Rattle.program_commands.specs.Reading.{source_paths, tape_file_at, tapes_at};
ghost use Rattle.miner_commands.specs.Opened.{open_paths, tapes_in, tapes_seen, AreOpen, IsOpen};

use command_frame::{Stop, file_stop};
use command_words::{TapeOrigin, TapeSeed};
use outside::Files;
use program_commands::tape_stop;
use std::alloc::Global;
use tape_sources::{OpenErr, TapeLengths, read_lengths};

/// Where the words of a run come from. None was drawn yet.
#[derive(Clone, Copy)]
pub enum OpenTapes<'a> {
    /// The tape file at a path, of which the size and the four lengths were read.
    File { path: &'a str, lengths: TapeLengths },
    /// A seed, from which each word is made where it is drawn.
    Seed(TapeSeed),
}

// Reads the size and the lengths of the tape file at this path. It is refused exactly where a reader of the whole file refuses it, with the same place.
fn open_file<F: Files>(alloc: Global, files: &mut F, path: &str) -> Result<TapeLengths, Stop>
    ensures files { OnlyRead (F.state files.old) (F.state files.new) }
    ensures answer { Gives (tapes_in (file_at (F.state files.old).contents path.now)) (F.state files.old) (F.state files.new) result
        (tape_file_at (F.state files.old).contents path.now) }
    ensures opened { IfOk result (IsOpen (F.state files.new) path.now) }
    ensures names { IfErr result (StopNames (path.now ∷ [])) }
{
    match read_lengths(files, path) {
        Ok(lengths) => Ok(lengths),
        Err(OpenErr::BadTape { place }) => Err(tape_stop(alloc, place)),
        Err(OpenErr::Failed) => Err(file_stop(alloc, path)),
    }
}

/// Opens the tapes of a run: of a file its size and its lengths are read, and no word; of a seed no word is made.
#[tactic(auto, unfolding(program_commands::specs::Reading::tapes_at))]
pub fn open_tapes<'a, F: Files>(
    alloc: Global,
    files: &mut F,
    source: &'a TapeOrigin,
) -> Result<OpenTapes<'a>, Stop>
    ensures files { OnlyRead (F.state files.old) (F.state files.new) }
    ensures answer { Gives (tapes_seen (F.state files.old).contents) (F.state files.old) (F.state files.new) result
        (tapes_at (F.state files.old).contents (source_ask source.now)) }
    ensures opened { IfOk result (AreOpen (F.state files.new)) }
    ensures paths { IfOk result (λ tapes. open_paths tapes ≡ source_paths (source_ask source.now)) }
    ensures names { IfErr result (StopNames (source_paths (source_ask source.now))) }
{
    match source {
        TapeOrigin::File(path) => {
            let lengths = open_file(alloc, files, path)?;
            Ok(OpenTapes::File { path, lengths })
        }
        TapeOrigin::Seed(seed) => Ok(OpenTapes::Seed(*seed)),
    }
}
