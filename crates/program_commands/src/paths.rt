// Paths that begin with a prefix.
ghost use Rattle.std.specs.Prelude.{◌≡◌, IfOk, string_bytes};
ghost use Rattle.program_commands.specs.Paths.{path_to};

use std::alloc::{AllocError, Global};

/// A path after the prefix.
#[tactic(auto, unfolding(crate::specs::Paths::path_to))]
pub fn path_behind(alloc: Global, prefix: &str, suffix: &str) -> Result<String, AllocError>
    ensures { IfOk result (λ path. string_bytes path ≡ path_to prefix.now suffix.now) }
{
    format!(in alloc; "{prefix}{suffix}")
}
