// A process that opens a journal, reads its records, and keeps the messages that it lacks.
ghost use Rattle.std.specs.Prelude.{◌≡◌, ◌≤◌, true, IfOk};
ghost use Rattle.kept_disk.specs.MemDisk.{disk_state};

use kept_disk::MemDisk;
use miner_journal::{Journal, JournalErr};
use proto_core::{Link, Msg};
use std::alloc::{AllocError, Global};

/// The path of the journal.
pub(crate) const PATH: &str = "journal";

/// How many messages come.
pub(crate) const COUNT: usize = 3;

/// How a process ended.
#[derive(Clone, Copy, Debug, PartialEq, Eq)]
pub(crate) enum End {
    /// It has kept all messages.
    Whole,
    /// A call of the disk failed, or there was no memory.
    Stopped,
    /// The journal is of other files, or it has a record that is broken or isn't one of the messages.
    Wrong,
}

/// How many records a process found, how many messages the journal has as far as it knows, and how it ended.
#[derive(Clone, Copy)]
pub(crate) struct Course {
    pub found: usize,
    pub kept: usize,
    pub end: End,
}

/// The digests of the code, the share and the tape file.
pub(crate) fn digests() -> [u8; 96] {
    let mut sums = [0x11; 96];
    sums[32..64].fill(0x22);
    sums[64..].fill(0x33);
    sums
}

/// The message of this number, and the link on which it comes.
pub(crate) fn message(number: usize) -> (Link, Msg) {
    match number {
        0 => (Link::Link12, Msg::from_words(&[5, 7])),
        1 => (Link::Link32, Msg::from_words(&[0, 0])),
        _ => (Link::Link12, Msg::from_words(&[258])),
    }
}

fn is_message(number: usize, link: Link, msg: &Msg) -> bool {
    let (wanted, sent) = message(number);
    number < COUNT && link == wanted && msg.words() == sent.words()
}

fn end_of(error: JournalErr) -> End {
    match error {
        JournalErr::DiskFault | JournalErr::Memory => End::Stopped,
        JournalErr::OtherFile { file: _ } | JournalErr::Broken { place: _ } => End::Wrong,
    }
}

// How many records there are, each the message of its number.
fn count_records(journal: &mut Journal, disk: &mut MemDisk) -> Result<usize, End>
    requires { (disk_state disk.old).attached ≡ true }
    ensures attached { (disk_state disk.new).attached ≡ true }
{
    for number in 0..=COUNT {
        match journal.next(disk) {
            Ok(Some((link, msg))) if is_message(number, link, &msg) => {}
            Ok(Some(_)) => return Err(End::Wrong),
            Ok(None) => return Ok(number),
            Err(error) => return Err(end_of(error)),
        }
    }
    Err(End::Wrong)
}

// Keeps the messages from this number on; says how many the journal has then, and how it ended.
fn keep_rest(alloc: Global, journal: &mut Journal, disk: &mut MemDisk, found: usize) -> Course
    requires { (disk_state disk.old).attached ≡ true }
{
    for number in found..COUNT {
        let (link, msg) = message(number);
        if journal.keep(alloc, disk, link, &msg).is_err() {
            return Course {
                found,
                kept: number,
                end: End::Stopped,
            };
        }
    }
    Course {
        found,
        kept: COUNT,
        end: End::Whole,
    }
}

fn ended(end: End) -> Course {
    Course {
        found: 0,
        kept: 0,
        end,
    }
}

/// Opens the journal, reads its records, and keeps the messages that it lacks.
pub(crate) fn go_on(alloc: Global, disk: &mut MemDisk) -> Course {
    match Journal::begin(disk, PATH, &digests()) {
        Ok(mut journal) => match count_records(&mut journal, disk) {
            Ok(found) => keep_rest(alloc, &mut journal, disk, found),
            Err(end) => ended(end),
        },
        Err(error) => ended(end_of(error)),
    }
}

/// A disk without files, each of whose calls from this one on fails.
pub(crate) fn disk_until(alloc: Global, dead_from: Option<u64>) -> MemDisk {
    MemDisk::new(alloc, Vec::new(alloc), dead_from)
}

/// A disk whose journal has these bytes.
pub(crate) fn disk_with(alloc: Global, bytes: &[u8]) -> Result<MemDisk, AllocError> {
    let mut disk = disk_until(alloc, None);
    disk.place(PATH, bytes)?;
    Ok(disk)
}
