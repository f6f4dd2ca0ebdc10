// A miner's own tape.
ghost use Rattle.std.specs.Prelude.{◌≡◌, ◌∷◌, [], IfOk, IfErr};
ghost use Rattle.command_frame.specs.Reads.{OnlyRead, Gives, StopNames};
ghost use Rattle.command_frame.specs.Stops.{IsRefusalFor};
ghost use Rattle.program_commands.specs.Reading.{bad_tape};
ghost use Rattle.tape_sources.specs.FileTapes.{file_in, words_in};
ghost use Rattle.miner_command.specs.Files.{own_tape_at};
ghost use Rattle.miner_command.specs.Opened.{IsOpen};

use crate::opened_file::TapeFile;
use command_frame::{Status, Stop, file_stop, refused};
use outside::Files;
use sc_text::Fault;
use std::alloc::Global;
use tape_sources::{OpenErr, read_length};

// Why an own tape is refused.
#[tactic(auto, unfolding(program_commands::specs::Reading::bad_tape))]
fn tape_stop(alloc: Global, place: u64) -> Stop
    ensures { IsRefusalFor (bad_tape place) result }
{
    let fault = Fault::BadTape { place };
    refused(Status::TapeFile, format!(in alloc; "{fault}"))
}

/// Opens the file at this path as a tape of so many words: its size and the length that stands in it are read, and no word.
///
/// It is refused exactly where a reader of the whole file refuses it, with the same place.
pub fn open_own_tape<F: Files>(
    alloc: Global,
    files: &mut F,
    count: u64,
    path: &str,
) -> Result<TapeFile, Stop>
    ensures files { OnlyRead (F.state files.old) (F.state files.new) }
    ensures answer { Gives (λ tape. words_in (file_in (F.state files.old) path.now) 8 tape.words) (F.state files.old) (F.state files.new) result
        (own_tape_at (F.state files.old).contents count path.now) }
    ensures words { IfOk result (λ tape. tape.words ≡ count) }
    ensures opened { IfOk result (IsOpen (F.state files.new) path.now) }
    ensures names { IfErr result (StopNames (path.now ∷ [])) }
{
    match read_length(files, path, count) {
        Ok(size) => Ok(TapeFile { words: count, size }),
        Err(OpenErr::BadTape { place }) => Err(tape_stop(alloc, place)),
        Err(OpenErr::Failed) => Err(file_stop(alloc, path)),
    }
}
