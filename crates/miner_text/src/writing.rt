// The text of a miner's run.
ghost use Rattle.std.specs.Prelude.{◌≡◌, IfOk};
ghost use Rattle.miner_text.specs.Lines.{text_of};

use crate::line::MinerLine;
use std::alloc::{AllocError, Global};

/// The text of these lines.
#[tactic(auto, unfolding(crate::specs::Lines::text_of))]
pub fn write(alloc: Global, lines: &[MinerLine]) -> Result<Vec<u8>, AllocError>
    ensures { IfOk result (λ text. text.items ≡ text_of lines.now) }
{
    let mut text = String::new(alloc);
    for line in lines {
        write!(text, "{line}")?;
    }
    Ok(text.into_bytes())
}
