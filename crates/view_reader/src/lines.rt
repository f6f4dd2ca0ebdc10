// Texts cut into lines, and lines into words.
ghost use Rattle.std.specs.Prelude.{◌≡◌, map, IfOk};
ghost use Rattle.view_text.specs.Reading.{lines_in, words_in_line};

use std::alloc::{AllocError, Global};

/// The parts between the newlines of a text.
pub fn lines_in(alloc: Global, bytes: &[u8]) -> Result<Vec<&[u8]>, AllocError>
    ensures { IfOk result (λ lines. map (λ line. line.now) lines.items ≡ lines_in bytes.now) }
{
    bytes.split(|byte| *byte == b'\n').collect(alloc)
}

/// The parts between the spaces of a line.
pub fn words_in_line(alloc: Global, line: &[u8]) -> Result<Vec<&[u8]>, AllocError>
    ensures { IfOk result (λ words. map (λ word. word.now) words.items ≡ words_in_line line.now) }
{
    line.split(|byte| *byte == b' ').collect(alloc)
}
