// Files as they are opened.
ghost use Rattle.std.specs.Prelude.{◌<◌};

use crate::course::{PATH, digests, disk_with};
use kept_disk::MemDisk;
use miner_journal::{Journal, JournalErr, KeptFile};
use row_files::Lines;
use std::alloc::{AllocError, Global};

fn file_name(file: KeptFile) -> &'static str {
    match file {
        KeptFile::Code => "code",
        KeptFile::Share => "share",
        KeptFile::Tape => "tape",
    }
}

fn note_opened(lines: &mut Lines, opened: Result<Journal, JournalErr>) {
    match opened {
        Ok(journal) => write!(lines, "opened, the next gate at {}", journal.place()),
        Err(JournalErr::DiskFault) => lines.add("the disk failed"),
        Err(JournalErr::Memory) => lines.run_short(),
        Err(JournalErr::OtherFile { file }) => write!(lines, "of another {} file", file_name(file)),
        Err(JournalErr::Broken { place }) => write!(lines, "broken at {place}"),
    }
}

fn note_disk(lines: &mut Lines, disk: &MemDisk) {
    let bytes = disk.bytes(PATH);
    let first = bytes.first().copied().unwrap_or(0);
    write!(
        lines,
        ", {} calls, {} bytes, the first {first}\n",
        disk.calls_made(),
        bytes.len()
    );
}

// Opens a journal whose file has these bytes.
fn tell_opening(alloc: Global, lines: &mut Lines, name: &str, bytes: &[u8]) {
    write!(lines, "{name}: ");
    match disk_with(alloc, bytes) {
        Ok(mut disk) => {
            note_opened(lines, Journal::begin(&mut disk, PATH, &digests()));
            note_disk(lines, &disk);
        }
        Err(AllocError) => lines.run_short(),
    }
}

// A journal without records, of files with these digests.
fn begun(sums: &[u8; 96]) -> [u8; 98] {
    let mut bytes = [0; 98];
    bytes[0] = 1;
    bytes[1..97].copy_from_slice(sums);
    bytes
}

// The digests with another byte in this place.
fn other_at(place: usize) -> [u8; 96]
    requires { place < 96 }
{
    let mut sums = digests();
    sums[place] = 0;
    sums
}

/// Files that aren't begun, one that is, and journals of other files.
pub(crate) fn tell(alloc: Global, lines: &mut Lines) {
    tell_opening(alloc, lines, "no byte", &[]);
    tell_opening(alloc, lines, "50 bytes 1", &[1; 50]);
    tell_opening(alloc, lines, "97 bytes 1", &[1; 97]);
    tell_opening(alloc, lines, "98 bytes 0", &[0; 98]);
    tell_opening(alloc, lines, "120 bytes 2", &[2; 120]);
    tell_opening(alloc, lines, "begun", &begun(&digests()));
    tell_opening(
        alloc,
        lines,
        "last byte of the code's",
        &begun(&other_at(31)),
    );
    tell_opening(
        alloc,
        lines,
        "first byte of the share's",
        &begun(&other_at(32)),
    );
    tell_opening(
        alloc,
        lines,
        "last byte of the tape's",
        &begun(&other_at(95)),
    );
    tell_opening(alloc, lines, "98 bytes 1", &[1; 98]);
}
