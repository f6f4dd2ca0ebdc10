// Share files, read from their paths.
ghost use Rattle.std.specs.Prelude.{◌≡◌, ◌∷◌, [], map, All, IfOk, IfErr, string_bytes};
ghost use Rattle.command_frame.specs.Reads.{OnlyRead, Gives, StopNames};
ghost use Rattle.input_share.specs.Reading.{AreWritable};
ghost use Rattle.gather_command.specs.Gather.{shares_at};

use command_frame::Stop;
use input_share::ShareFile;
use outside::Files;
use program_commands::read_share_file;
use proto_core::Number;
use std::alloc::Global;

/// The share files of this miner at these paths.
pub(crate) fn read_shares<F: Files>(
    alloc: Global,
    files: &mut F,
    miner: Number,
    paths: &[String],
) -> Result<Vec<ShareFile>, Stop>
    ensures files { OnlyRead (F.state files.old) (F.state files.new) }
    ensures answer { Gives (λ shares. shares.items) (F.state files.old) (F.state files.new) result
        (shares_at (F.state files.old).contents miner (map string_bytes paths.now)) }
    ensures form { IfOk result (λ shares. All (λ share. AreWritable share.entries) shares.items) }
    ensures names { IfErr result (StopNames (map string_bytes paths.now)) }
{
    let mut shares = Vec::with_capacity(alloc, paths.len())?;
    for path in paths {
        shares.push(read_share_file(alloc, files, miner, path)?)?;
    }
    Ok(shares)
}
