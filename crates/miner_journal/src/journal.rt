// A journal, record by record.
ghost use Rattle.std.specs.Prelude.{◌≡◌, ◌+◌, ◌<◌, ◌≤◌, ◌∷◌, ◌++◌, [], ℕ, List, drop, length, true, false, Some, IfOk, IfErr, OnOk};
ghost use Rattle.outside.specs.Causes.{HasCause};
ghost use Rattle.kept_disk.specs.Disk.{OnlyHeld, SameDisk, SameFile, held};
ghost use Rattle.wire.specs.Frames.{IsFrameable};
ghost use Rattle.kept_disk.specs.Images.{EachMoment};
ghost use Rattle.kept_frames.specs.Kept.{Kept};
ghost use Rattle.miner_journal.specs.Format.{IsSettled, Shut, WithOrWithout, at_gate, behind_record, is_begun, link_number, read_record, record_bytes};
ghost use Rattle.miner_journal.specs.Begins.{FromSync, Holds, IsOpened, IsUnopened, OnlyAt};
ghost use Rattle.miner_journal.specs.Reads.{Finds, FindsNot};

use crate::journal_err::JournalErr;
use crate::keeping::keep_body;
use crate::opening::open;
use crate::reading::read_all;
use crate::walking::read_record;
use kept_disk::Disk;
use outside::FileErr;
use proto_core::{Link, Msg};
use std::alloc::{AllocError, Global};

// The number of a link.
fn link_number(link: Link) -> u8
    ensures { result ≡ link_number link }
{
    match link {
        Link::Link12 => 0,
        Link::Link13 => 1,
        Link::Link21 => 2,
        Link::Link23 => 3,
        Link::Link31 => 4,
        Link::Link32 => 5,
    }
}

// The bytes of a record, and a closed gate after them.
#[tactic(auto, unfolding(crate::specs::Format::record_bytes, wire::specs::Frames::frame_bytes))]
fn record_of(alloc: Global, link: Link, msg: &Msg) -> Result<Vec<u8>, AllocError>
    ensures { IfOk result (λ v. v.items ≡ record_bytes (record { link = link; words = msg.now }) ++ 0 ∷ []) }
{
    let mut frame = Vec::new(alloc);
    wire::frame(msg, &mut frame)?;
    let mut bytes = Vec::new(alloc);
    bytes.push(link_number(link))?;
    bytes.extend_from_slice(&frame[1..])?;
    bytes.push(0)?;
    Ok(bytes)
}

/// A miner's journal, in the attached file of a disk, by the place of its next gate.
///
/// No call may be made after one that was refused, and nobody else may write to that file.
#[derive(Drop)]
pub struct Journal {
    place: u64,
}

// Whether the gate at this place is open, in a file of `size` bytes.
fn is_open<D: Disk>(disk: &mut D, place: u64, size: u64) -> Result<bool, FileErr>
    requires attached { (D.state disk.old).attached ≡ true }
    requires sized { (D.state disk.old).size ≡ Some size }
    ensures shut { IfOk result (λ goes. goes ≡ false → (D.state disk.old).told ≡ true → length (held (D.state disk.old)).seen ≡ size →
        at_gate (drop place (held (D.state disk.old)).seen) ≡ Shut) }
    ensures goes { IfOk result (λ goes. goes ≡ true → (place < size) × ((D.state disk.old).told ≡ true → length (held (D.state disk.old)).seen ≡ size →
        at_gate (drop place (held (D.state disk.old)).seen) ≡ behind_record (read_record (drop (place + 1) (held (D.state disk.old)).seen)))) }
    ensures same { SameDisk (D.state disk.old) (D.state disk.new) }
    ensures cause { HasCause (D.state disk.old).faults (D.state disk.new).faults result }
{
    if size <= place {
        return Ok(false);
    }
    let mut gate = [0; 1];
    read_all(disk, place, &mut gate)?;
    let [gate] = gate;
    Ok(gate == 1)
}

impl Journal {
    /// The message of the next record and the link on which it came, in order; `None` where its gate isn't open. A broken record is an error that
    /// names the place of its gate.
    pub fn next<D: Disk>(&mut self, disk: &mut D) -> Result<Option<(Link, Msg)>, JournalErr>
        requires attached { (D.state disk.old).attached ≡ true }
        ensures found { IfOk result (λ found. (D.state disk.old).told ≡ true →
            Finds (at_gate (drop self.old.place (held (D.state disk.old)).seen)) self.old.place self.new.place found) }
        ensures none { IfErr result (FindsNot (at_gate (drop self.old.place (held (D.state disk.old)).seen)) self.old.place self.new.place
            (D.state disk.old) (D.state disk.new)) }
        ensures same { SameFile (D.state disk.old) (D.state disk.new) }
        ensures later { (D.state disk.old).faults ≤ (D.state disk.new).faults }
    {
        let size = disk.len()?;
        let place = self.place;
        if !is_open(disk, place, size)? {
            return Ok(None);
        }
        match read_record(disk, place + 1, size)? {
            Some((link, msg)) => {
                self.place = place + 6 + 8 * msg.words().len() as u64;
                Ok(Some((link, msg)))
            }
            None => Err(JournalErr::Broken { place }),
        }
    }

    /// Opens the journal of three files with these digests (SHA-256 of the code, the share and the tape file), and begins it where it isn't begun.
    /// Its records are then to be read by `next`. A journal that is begun is only read; where it is of other files the first that differs is named.
    pub fn begin<D: Disk>(disk: &mut D, path: &str, sums: &[u8; 96]) -> Result<Journal, JournalErr>
        // From the first sync on that succeeded a crash at any moment leaves what was read, where a journal was begun, else one that isn't or that has no
        // record.
        ensures since { (D.state disk.old).told ≡ true → FromSync ((D.state disk.old).files path.now) ((D.state disk.new).files path.now) sums.now }
        ensures ok { OnOk result ((D.state disk.old).told ≡ true → IsOpened (is_begun ((D.state disk.old).files path.now).seen) sums.now
            ((D.state disk.old).files path.now) ((D.state disk.new).files path.now)) }
        ensures first { IfOk result (λ journal. journal.place ≡ 97) }
        ensures err { IfErr result (IsUnopened (D.state disk.old) (D.state disk.new) path.now sums.now) }
        ensures holds { OnOk result (Holds (D.state disk.new) path.now) }
        ensures only { OnlyAt (D.state disk.old) (D.state disk.new) path.now }
        ensures later { (D.state disk.old).faults ≤ (D.state disk.new).faults }
    {
        open(disk, path, sums)?;
        Ok(Journal { place: 97 })
    }

    /// The place of the next gate, in bytes.
    pub fn place(&self) -> u64
        ensures { result ≡ self.now.place }
    {
        self.place
    }

    /// Keeps a message that came on a link, after all records, where `next` has answered that there is none. It is then there for good.
    pub fn keep<D: Disk>(
        &mut self,
        alloc: Global,
        disk: &mut D,
        link: Link,
        msg: &Msg,
    ) -> Result<(), FileErr>
        requires { (D.state disk.old).attached ≡ true }
        // A crash at any moment leaves the records from before, with this one or without.
        ensures each { (D.state disk.old).told ≡ true → IsFrameable msg.now → (sums : List ℕ) (rs : List Kept) →
            IsSettled sums rs (held (D.state disk.old)) self.old.place →
            EachMoment (held (D.state disk.old)) (held (D.state disk.new)) (WithOrWithout sums rs (record { link = link; words = msg.now })) }
        // Once it is kept, it is there.
        ensures ok { OnOk result ((D.state disk.old).told ≡ true → IsFrameable msg.now → (sums : List ℕ) (rs : List Kept) →
            IsSettled sums rs (held (D.state disk.old)) self.old.place →
            IsSettled sums (rs ++ record { link = link; words = msg.now } ∷ []) (held (D.state disk.new)) self.new.place) }
        ensures only { OnlyHeld (D.state disk.old) (D.state disk.new) }
        ensures cause { HasCause (D.state disk.old).faults (D.state disk.new).faults result }
    {
        let body = record_of(alloc, link, msg)?;
        match self.place.checked_add(6 + 8 * msg.words().len() as u64) {
            Some(next) => {
                keep_body(disk, self.place, &body)?;
                self.place = next;
                Ok(())
            }
            None => Err(FileErr::Memory),
        }
    }
}
