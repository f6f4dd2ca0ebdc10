// Files that are to be written, one after another.
ghost use Rattle.std.specs.Prelude.{◌≡◌, ◌∷◌, ◌++◌, [], OnOk};
ghost use Rattle.command_frame.specs.Answer.{content_bytes, writes_of};
ghost use Rattle.program_commands.specs.Paths.{file_of};

use crate::paths::path_behind;
use command_frame::{Content, PlannedWrite};
use std::alloc::{AllocError, Global};

/// Adds a file that is to be written, at a path after the prefix.
pub fn add_write(
    alloc: Global,
    writes: &mut Vec<PlannedWrite>,
    prefix: &str,
    suffix: &str,
    content: Content,
) -> Result<(), AllocError>
    ensures { OnOk result (writes_of writes.new.items ≡ writes_of writes.old.items ++ file_of prefix.now suffix.now (content_bytes content) ∷ []) }
{
    let path = path_behind(alloc, prefix, suffix)?;
    writes.push(PlannedWrite { path, content })?;
    Ok(())
}
