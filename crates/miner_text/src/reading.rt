// A miner's text, line by line.
ghost use Rattle.std.specs.Prelude.{◌≡◌, IfOk};
ghost use Rattle.view_text.specs.Reading.{words_in_line};
ghost use Rattle.miner_text.specs.Reading.{line_in, read_of};
ghost use Rattle.miner_text.specs.Reads.{Reads};
ghost use Rattle.miner_text.specs.inner.Pushing.{Pushed};

use crate::line::MinerLine;
use crate::parts;
use crate::text_err::TextErr;
use std::alloc::{AllocError, Global};
use view_reader::{lines_in, words_in_line};

/// What a line is.
#[derive(Clone, Copy)]
enum Kind {
    /// No line of a miner's text.
    Wrong,
    /// A line after which others come.
    Inner,
    /// The line of the end.
    Last,
}

fn line_in(alloc: Global, line: &[u8]) -> Result<Option<MinerLine>, AllocError>
    ensures { IfOk result (λ found. found ≡ line_in (words_in_line line.now)) }
{
    let words = words_in_line(alloc, line)?;
    parts::line_in(alloc, &words)
}

/// Puts a line after those that are there, or says that it is none.
fn push_line(alloc: Global, line: &[u8], lines: &mut Vec<MinerLine>) -> Result<Kind, AllocError>
    ensures { IfOk result (λ kind. Pushed kind lines.old.items lines.new.items (line_in (words_in_line line.now))) }
{
    let Some(line) = line_in(alloc, line)? else {
        return Ok(Kind::Wrong);
    };
    let kind = match &line {
        MinerLine::Ended(_) => Kind::Last,
        _ => Kind::Inner,
    };
    lines.push(line)?;
    Ok(kind)
}

/// Reads a miner's text: lines `open`, `publish` and `share` in any order, then the line `end`, each with its newline. Numbers are
/// decimal without leading zeros and below 2^64; one space stands before each word but the first.
///
/// `BadText` names the first line, counted from 1, that is of another form, has no newline or stands after the end; where the text
/// stops early, the line after its last.
pub fn read(alloc: Global, bytes: &[u8]) -> Result<Vec<MinerLine>, TextErr>
    ensures { Reads (read_of bytes.now) result }
{
    let parts = lines_in(alloc, bytes)?;
    let Some((rest, lines)) = parts.split_last() else {
        return Err(TextErr::BadText { line: 1 });
    };
    let mut read = Vec::new(alloc);
    for (index, line) in lines.iter().enumerate() {
        match push_line(alloc, line, &mut read)? {
            Kind::Wrong => {
                let line = index as u64 + 1;
                return Err(TextErr::BadText { line });
            }
            Kind::Inner => {}
            Kind::Last => {
                if index + 1 < lines.len() || !rest.is_empty() {
                    let line = index as u64 + 2;
                    return Err(TextErr::BadText { line });
                }
                return Ok(read);
            }
        }
    }
    let line = lines.len() as u64 + 1;
    Err(TextErr::BadText { line })
}
