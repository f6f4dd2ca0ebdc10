// A view from its text.
ghost use Rattle.std.specs.Prelude.{◌≡◌};
ghost use Rattle.view_text.specs.Reading.{read_view_of};
ghost use Rattle.view_reader.specs.Reads.{Reads};

use crate::lines::lines_in;
use crate::read_err::ReadErr;
use crate::reading::Reading;
use std::alloc::Global;
use view_text::View;

/// Reads the text of a view: `view` and the miner's number, a line `in` for each share of an input, `drew`, a line `got` for
/// each message, a line `open` for each opening, and `end`, in this order, each line with its newline.
///
/// `BadView` names the first line, counted from 1, that is of another form, out of this order or after the end; where the
/// text stops early, the line after its last.
pub fn read(alloc: Global, bytes: &[u8]) -> Result<View, ReadErr>
    ensures { Reads (λ view. view) (read_view_of bytes.now) result }
{
    let parts = lines_in(alloc, bytes)?;
    let Some((rest, lines)) = parts.split_last() else {
        return Err(ReadErr::BadView { line: 1 });
    };
    let mut reading = Reading::new(alloc);
    for (index, line) in lines.iter().enumerate() {
        if !reading.take_line(alloc, line)? {
            let line = index as u64 + 1;
            return Err(ReadErr::BadView { line });
        }
    }
    let line = lines.len() as u64 + 1;
    if !rest.is_empty() {
        return Err(ReadErr::BadView { line });
    }
    match reading.into_view() {
        Some(view) => Ok(view),
        None => Err(ReadErr::BadView { line }),
    }
}
