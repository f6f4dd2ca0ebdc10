ghost use Rattle.std.specs.Prelude.{◌≡◌, [], ◌∷◌, IfErr};
ghost use Rattle.command_frame.specs.Answer.{bytes_at};
ghost use Rattle.outside.specs.Files.{SameSizes};
ghost use Rattle.command_frame.specs.Reads.{OnlyRead, Gives, StopNames};

use crate::Stop;
use crate::stop::file_stop;
use outside::{FileErr, Files};
use std::alloc::Global;

/// The bytes of a file.
#[tactic(auto, unfolding(crate::specs::Answer::bytes_at))]
pub fn read_file<F: Files>(alloc: Global, files: &mut F, path: &str) -> Result<Vec<u8>, Stop>
    ensures files { OnlyRead (F.state files.old) (F.state files.new) }
    ensures sizes { SameSizes (F.state files.old) (F.state files.new) }
    ensures answer { Gives (λ v. v.items) (F.state files.old) (F.state files.new) result (bytes_at (F.state files.old).contents path.now) }
    ensures names { IfErr result (StopNames (path.now ∷ [])) }
{
    match files.read(alloc, path) {
        Ok(bytes) => Ok(bytes),
        Err(FileErr::Memory) => Err(Stop::Memory),
        Err(FileErr::Failed) => Err(file_stop(alloc, path)),
    }
}
