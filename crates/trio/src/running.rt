// The run of three miners as programs of their own.
ghost use Rattle.trio.specs.Answers.{TextsRead};
ghost use Rattle.trio.specs.Launches.{StartedWith};
ghost use Rattle.trio.specs.Runs.{RanChildren, RanTexts};
ghost use Rattle.trio.specs.Words.{miner_words, out_path};

use crate::files::join_files;
use crate::join_err::JoinErr;
use crate::joined::Joined;
use crate::launching::{Job, launch};
use crate::paths::out_path;
use crate::trio_err::TrioErr;
use outside::{Files, Spawner};
use proto_core::Number;
use std::alloc::Global;

/// The texts of three miners, from the files in which they write them, put together.
fn join_outputs<F: Files>(alloc: Global, prefix: &str, files: &mut F) -> Result<Joined, JoinErr>
    ensures { TextsRead (F.state files.old) (F.state files.new) (out_path prefix.now) result }
{
    let first = out_path(alloc, prefix, Number::One)?;
    let second = out_path(alloc, prefix, Number::Two)?;
    let third = out_path(alloc, prefix, Number::Three)?;
    join_files(alloc, &first, &second, &third, files)
}

/// Runs three miners as programs of their own, whose code, shares and tapes stand in files that begin with `prefix`: starts them, waits
/// for each, and puts together the texts that they wrote.
///
/// `Child` says that one could not be started or waited for, or ended with a status other than 0, 1, 7 and 8; all that were started are
/// waited for, where all three were. `Texts` says which text could not be read, is of another form, or differs from the first one's.
pub fn run<F: Files, C: Spawner>(
    alloc: Global,
    prefix: &str,
    port: u16,
    budget: u64,
    files: &mut F,
    children: &mut C,
) -> Result<Joined, TrioErr>
    ensures children { RanChildren (C.state children.old) (C.state children.new) (miner_words prefix.now port budget) result }
    ensures held { StartedWith (F.state files.old) (C.state children.old) (C.state children.new) }
    ensures texts { RanTexts (F.state files.old) (F.state files.new) (out_path prefix.now) result }
{
    let job = Job {
        prefix,
        port,
        budget,
    };
    launch(alloc, &job, &*files, children)?;
    let joined = join_outputs(alloc, prefix, files)?;
    Ok(joined)
}
