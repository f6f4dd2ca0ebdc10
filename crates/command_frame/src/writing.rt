//! Writing one file.
ghost use Rattle.std.specs.Prelude.{◌≤◌, length, OnOk, IfErr, string_bytes};
ghost use Rattle.outside.specs.Files.{Appended, Wrote};
ghost use Rattle.view_text.specs.Pieces.{bytes_left};
ghost use Rattle.view_text.specs.Text.{view_bytes};
ghost use Rattle.command_frame.specs.Answer.{content_bytes};
ghost use Rattle.command_frame.specs.Finish.{Grew, GrewUpTo, IsThere, StopsWritingOne, Touches};

use crate::stop::file_stop;
use crate::{Content, PlannedWrite, Stop};
use outside::{FileErr, Files};
use std::alloc::Global;
use view_text::{Pieces, View};

/// The most bytes that are appended to a file at once.
const MOST_BYTES: usize = 65536;

/// How many bytes of a view's text are gathered before they are appended.
const ENOUGH_BYTES: usize = 32768;

fn write_bytes<F: Files>(
    alloc: Global,
    files: &mut F,
    path: &String,
    bytes: &[u8],
) -> Result<(), Stop>
    ensures ok { OnOk result (Wrote (F.state files.old) (F.state files.new) (string_bytes path.now) bytes.now) }
    ensures touches { Touches (string_bytes path.now) (F.state files.old) (F.state files.new) }
    ensures err { IfErr result (StopsWritingOne (string_bytes path.now) (F.state files.old) (F.state files.new)) }
{
    match files.write(alloc, path, bytes) {
        Ok(()) => Ok(()),
        Err(FileErr::Memory) => Err(Stop::Memory),
        Err(FileErr::Failed) => Err(file_stop(alloc, path)),
    }
}

fn append_piece<F: Files>(
    alloc: Global,
    files: &mut F,
    path: &String,
    bytes: &[u8],
) -> Result<(), Stop>
    requires most { length bytes.now ≤ 65536 }
    requires there { IsThere (F.state files.old) (string_bytes path.now) }
    ensures ok { OnOk result (Appended (F.state files.old) (F.state files.new) (string_bytes path.now) bytes.now) }
    ensures touches { Touches (string_bytes path.now) (F.state files.old) (F.state files.new) }
    ensures err { IfErr result (StopsWritingOne (string_bytes path.now) (F.state files.old) (F.state files.new)) }
{
    match files.append(alloc, path, bytes) {
        Ok(()) => Ok(()),
        Err(FileErr::Memory) => Err(Stop::Memory),
        Err(FileErr::Failed) => Err(file_stop(alloc, path)),
    }
}

// Puts these bytes after the file's, so many at once as an append takes.
fn append_bytes<F: Files>(
    alloc: Global,
    files: &mut F,
    path: &String,
    bytes: &[u8],
) -> Result<(), Stop>
    requires { IsThere (F.state files.old) (string_bytes path.now) }
    ensures ok { OnOk result (Grew (string_bytes path.now) bytes.now (F.state files.old) (F.state files.new)) }
    ensures touches { Touches (string_bytes path.now) (F.state files.old) (F.state files.new) }
    ensures err { IfErr result (StopsWritingOne (string_bytes path.now) (F.state files.old) (F.state files.new)) }
{
    let mut left = bytes;
    while !left.is_empty() {
        let (piece, rest) = left.split_at(left.len().min(MOST_BYTES));
        append_piece(alloc, files, path, piece)?;
        left = rest;
    }
    Ok(())
}

// Puts a text that is long enough after the file's bytes, and begins a new one.
fn append_enough<F: Files>(
    alloc: Global,
    files: &mut F,
    path: &String,
    text: &mut String,
) -> Result<(), Stop>
    requires { IsThere (F.state files.old) (string_bytes path.now) }
    ensures ok { OnOk result (GrewUpTo (string_bytes path.now) (string_bytes text.old) (string_bytes text.new) (F.state files.old) (F.state files.new)) }
    ensures touches { Touches (string_bytes path.now) (F.state files.old) (F.state files.new) }
    ensures err { IfErr result (StopsWritingOne (string_bytes path.now) (F.state files.old) (F.state files.new)) }
{
    if text.len() < ENOUGH_BYTES {
        return Ok(());
    }
    append_bytes(alloc, files, path, text.as_bytes())?;
    text.clear();
    Ok(())
}

// Puts what is left of a view's text after the file's bytes.
fn append_pieces<F: Files>(
    alloc: Global,
    files: &mut F,
    path: &String,
    pieces: Pieces<'_>,
) -> Result<(), Stop>
    requires { IsThere (F.state files.old) (string_bytes path.now) }
    ensures ok { OnOk result (Grew (string_bytes path.now) (bytes_left pieces.entry) (F.state files.old) (F.state files.new)) }
    ensures touches { Touches (string_bytes path.now) (F.state files.old) (F.state files.new) }
    ensures err { IfErr result (StopsWritingOne (string_bytes path.now) (F.state files.old) (F.state files.new)) }
{
    let mut left = pieces;
    let mut text = String::new(alloc);
    while left.push_next(&mut text)? {
        append_enough(alloc, files, path, &mut text)?;
    }
    append_bytes(alloc, files, path, text.as_bytes())
}

fn write_view<F: Files>(
    alloc: Global,
    files: &mut F,
    path: &String,
    view: &View,
) -> Result<(), Stop>
    ensures ok { OnOk result (Wrote (F.state files.old) (F.state files.new) (string_bytes path.now) (view_bytes view.now)) }
    ensures touches { Touches (string_bytes path.now) (F.state files.old) (F.state files.new) }
    ensures err { IfErr result (StopsWritingOne (string_bytes path.now) (F.state files.old) (F.state files.new)) }
{
    let line = view.first_line(alloc)?;
    write_bytes(alloc, files, path, line.as_bytes())?;
    append_pieces(alloc, files, path, view.other_lines())
}

/// Writes a file: bytes by one `write`; a view by a `write` of its first line and then appends of at most 65,536 bytes.
///
/// `Failed` where it could not be written, `Memory` where there was no memory for it: it may hold any bytes then.
pub(crate) fn write_file<F: Files>(
    alloc: Global,
    files: &mut F,
    file: &PlannedWrite,
) -> Result<(), Stop>
    ensures ok { OnOk result (Wrote (F.state files.old) (F.state files.new) (string_bytes file.now.path) (content_bytes file.now.content)) }
    ensures touches { Touches (string_bytes file.now.path) (F.state files.old) (F.state files.new) }
    ensures err { IfErr result (StopsWritingOne (string_bytes file.now.path) (F.state files.old) (F.state files.new)) }
{
    match &file.content {
        Content::Bytes(bytes) => write_bytes(alloc, files, &file.path, bytes),
        Content::View(view) => write_view(alloc, files, &file.path, view),
    }
}
