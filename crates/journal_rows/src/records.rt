// Files with records, whole and broken.
ghost use Rattle.std.specs.Prelude.{◌≡◌, true};
ghost use Rattle.kept_disk.specs.MemDisk.{disk_state};

use crate::course::{PATH, digests, disk_with};
use kept_disk::MemDisk;
use miner_journal::{Journal, JournalErr};
use row_files::Lines;
use std::alloc::{AllocError, Global};

// The bytes of the words 5 and 7.
const WORDS: [u8; 16] = [5, 0, 0, 0, 0, 0, 0, 0, 7, 0, 0, 0, 0, 0, 0, 0];

// A begun journal, and these bytes from its first record's gate on.
fn file_with(alloc: Global, parts: &[&[u8]]) -> Result<Vec<u8>, AllocError> {
    let mut bytes = vec![in alloc; 1u8]?;
    bytes.extend_from_slice(&digests())?;
    for part in parts {
        bytes.extend_from_slice(part)?;
    }
    Ok(bytes)
}

// The next record, or that there is none. Whether there is one.
fn tell_next(lines: &mut Lines, journal: &mut Journal, disk: &mut MemDisk) -> bool
    requires { (disk_state disk.old).attached ≡ true }
    ensures { (disk_state disk.new).attached ≡ true }
{
    match journal.next(disk) {
        Ok(Some((link, msg))) => {
            let words = msg.words();
            write!(
                lines,
                " {link} has {} from {}",
                words.len(),
                words.first().copied().unwrap_or(0)
            );
            return true;
        }
        Ok(None) => write!(lines, " end at {}\n", journal.place()),
        Err(JournalErr::Broken { place }) => write!(lines, " broken at {place}\n"),
        Err(JournalErr::Memory) => lines.run_short(),
        Err(_) => lines.add(" no answer\n"),
    }
    false
}

// At most three records.
fn tell_all(lines: &mut Lines, journal: &mut Journal, disk: &mut MemDisk)
    requires { (disk_state disk.old).attached ≡ true }
{
    let _ = tell_next(lines, journal, disk)
        && tell_next(lines, journal, disk)
        && tell_next(lines, journal, disk);
}

fn tell_file(alloc: Global, lines: &mut Lines, name: &str, parts: &[&[u8]]) {
    write!(lines, "{name}:");
    match file_with(alloc, parts).and_then(|bytes| disk_with(alloc, &bytes)) {
        Ok(mut disk) => match Journal::begin(&mut disk, PATH, &digests()) {
            Ok(mut journal) => tell_all(lines, &mut journal, &mut disk),
            Err(_) => lines.add(" not opened\n"),
        },
        Err(AllocError) => lines.run_short(),
    }
}

/// Records of each kind.
pub(crate) fn tell(alloc: Global, lines: &mut Lines) {
    tell_file(alloc, lines, "no record", &[&[0]]);
    tell_file(alloc, lines, "one", &[&[1, 0, 2, 0, 0, 0], &WORDS, &[0]]);
    tell_file(
        alloc,
        lines,
        "two",
        &[
            &[1, 5, 2, 0, 0, 0],
            &WORDS,
            &[1, 2, 1, 0, 0, 0],
            &WORDS[8..],
            &[7, 1, 1],
        ],
    );
    tell_file(
        alloc,
        lines,
        "the most words",
        &[&[1, 4, 0, 8, 0, 0], &[3; 16384], &[0]],
    );
    tell_file(
        alloc,
        lines,
        "a gate of 2",
        &[&[2, 0, 2, 0, 0, 0], &WORDS, &[0]],
    );
    tell_file(alloc, lines, "link 6", &[&[1, 6, 2, 0, 0, 0], &WORDS, &[0]]);
    tell_file(alloc, lines, "no word", &[&[1, 0, 0, 0, 0, 0], &[0]]);
    tell_file(
        alloc,
        lines,
        "a word too many",
        &[&[1, 0, 1, 8, 0, 0], &[3; 16392], &[0]],
    );
    tell_file(alloc, lines, "a head that ends", &[&[1, 0, 2, 0, 0]]);
    tell_file(
        alloc,
        lines,
        "words that end",
        &[&[1, 0, 2, 0, 0, 0], &WORDS[..15]],
    );
    tell_file(
        alloc,
        lines,
        "no gate after it",
        &[&[1, 0, 2, 0, 0, 0], &WORDS],
    );
    tell_file(
        alloc,
        lines,
        "the second broken",
        &[&[1, 0, 2, 0, 0, 0], &WORDS, &[1, 9]],
    );
}
