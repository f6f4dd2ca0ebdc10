// Files of the operating system.
ghost use Rattle.std.specs.Prelude.{◌≡◌, ◌≢◌, ◌<◌, ◌≤◌, ◌↔◌, ℕ, List, Some, length, IfOk, OnOk, OnErr, IfSome, IsTrue};
ghost use Rattle.std.specs.BTreeMap.{get_by_text};
ghost use Rattle.outside.specs.Files.{IsBelow};
ghost use Rattle.real_objects.specs.Untold.{untold_files};

use crate::attempts::read_some_at;
use crate::bounded::read_within;
use outside::{Failed, FileErr, Files, HeldFiles};
use std::alloc::{AllocError, Global};
use std::collections::BTreeMap;
use std::fs::{self, OpenFile, OpenOptions};
use std::io::{self, Write};
use std::os::unix::fs::{FileExt, OpenOptionsExt};

// The mode of a file that is made: its owner alone may read and write it. One that is there already keeps its own.
const OWNER_ALONE: u32 = 0o600;

/// The most bytes that a file may have to be read.
const MAX_FILE: u64 = 4_294_967_296;

// A file that stands open to be read from any place.
#[derive(Drop)]
struct Opened<F: Drop> {
    path: String,
    file: F,
}

/// Files of the operating system. Nothing is told of them but the sizes that were answered; each error is counted. A file that is made is its
/// owner's alone (mode 0600); one that is there keeps its mode.
#[derive(Drop)]
pub struct RealFiles<'a, R: std::rt::Files> {
    rt: &'a R,
    alloc: Global,
    // By the paths of the files whose size was asked for.
    sizes: BTreeMap<String, u64>,
    // The file that was read in part last stays open.
    opened: Option<Opened<R::File>>,
    faults: u64,
}

// The bytes of a file. One over the bound is an error.
fn read_file<R: std::rt::Files>(rt: &R, alloc: Global, path: &str) -> io::Result<Vec<u8>> {
    match read_within(alloc, fs::open(rt, path)?, MAX_FILE)? {
        Some(bytes) => Ok(bytes),
        None => Err(io::Error::from(io::ErrorKind::FileTooLarge)),
    }
}

// Opens a file to be read from any place.
fn open_file<R: std::rt::Files>(rt: &R, alloc: Global, path: &str) -> io::Result<Opened<R::File>> {
    let file = fs::open(rt, path)?;
    let path = String::from_str(alloc, path)?;
    Ok(Opened { path, file })
}

// Makes a file, or empties the one that is there, and writes these bytes to it.
fn write_to<R: std::rt::Files>(rt: &R, path: &str, bytes: &[u8]) -> io::Result<()> {
    let mut options = OpenOptions::new();
    options
        .write(true)
        .create(true)
        .truncate(true)
        .mode(OWNER_ALONE);
    let mut file = options.open(rt, path)?;
    file.write_all(bytes)
}

// Puts bytes after those of a file, which is there.
fn append_to<R: std::rt::Files>(rt: &R, path: &str, bytes: &[u8]) -> io::Result<()> {
    let mut file = OpenOptions::new().append(true).open(rt, path)?;
    file.write_all(bytes)
}

// Want of memory is an answer of its own.
fn file_err(error: &io::Error) -> FileErr {
    match error.kind() {
        io::ErrorKind::OutOfMemory => FileErr::Memory,
        _ => FileErr::Failed,
    }
}

// Keeps the size of the file at this path.
fn keep_size(
    alloc: Global,
    sizes: &mut BTreeMap<String, u64>,
    path: &str,
    size: u64,
) -> io::Result<()>
    ensures kept { OnOk result (get_by_text sizes.new path.now ≡ Some size) }
    ensures others { (q : List ℕ) → q ≢ path.now → get_by_text sizes.new q ≡ get_by_text sizes.old q }
    ensures err { OnErr result ((q : List ℕ) → get_by_text sizes.new q ≡ get_by_text sizes.old q) }
{
    let name = String::from_str(alloc, path)?;
    sizes.insert(name, size)?;
    Ok(())
}

// Whether the file at this path stands open.
fn is_opened<F: Drop>(opened: &Option<Opened<F>>, path: &str) -> bool {
    match opened {
        Some(opened) => path == opened.path.as_str(),
        None => false,
    }
}

// Whether a place is below the size that was last answered of the file at this path.
fn is_below(sizes: &BTreeMap<String, u64>, path: &str, from: u64) -> bool
    ensures { IsTrue result ↔ IsBelow (get_by_text sizes.now path.now) from }
{
    match sizes.get(path) {
        Some(size) => from < *size,
        None => false,
    }
}

impl<'a, R: std::rt::Files> RealFiles<'a, R> {
    /// The files that this runtime reaches.
    pub fn new(rt: &'a R, alloc: Global) -> Self
        ensures { result.faults ≡ 0 }
    {
        RealFiles {
            rt,
            alloc,
            sizes: BTreeMap::new(alloc),
            opened: None,
            faults: 0,
        }
    }

    // The size of the file at this path, which is kept. The file stands open from then on.
    fn measure(&mut self, path: &str) -> io::Result<u64>
        ensures answered { IfOk result (λ n. get_by_text self.new.sizes path.now ≡ Some n) }
        ensures others { (q : List ℕ) → q ≢ path.now → get_by_text self.new.sizes q ≡ get_by_text self.old.sizes q }
        ensures err { OnErr result ((q : List ℕ) → get_by_text self.new.sizes q ≡ get_by_text self.old.sizes q) }
        ensures faults { self.new.faults ≡ self.old.faults }
    {
        let opened = open_file(self.rt, self.alloc, path)?;
        let size = opened.file.metadata()?.len();
        keep_size(self.alloc, &mut self.sizes, path, size)?;
        self.opened = Some(opened);
        Ok(size)
    }

    // Opens the file at this path, unless it stands open.
    fn reach(&mut self, path: &str) -> io::Result<()>
        ensures sizes { self.new.sizes ≡ self.old.sizes }
        ensures faults { self.new.faults ≡ self.old.faults }
    {
        if !is_opened(&self.opened, path) {
            self.opened = Some(open_file(self.rt, self.alloc, path)?);
        }
        Ok(())
    }
}

impl<'a, R: std::rt::Files> RealFiles<'a, R>
where
    R::File: FileExt,
{
    // The bytes of the file from a place on, at least one where it is below the size that was answered.
    fn read_from(&mut self, path: &str, from: u64, into: &mut [u8]) -> Option<usize>
        ensures most { IfSome result (λ k. k ≤ length into.old) }
        ensures some { IfSome result (λ k. 0 < length into.old → IsBelow (get_by_text self.old.sizes path.now) from → 0 < k) }
        ensures none { IfSome result (λ k. 0 < k → IsBelow (get_by_text self.old.sizes path.now) from) }
        ensures sizes { self.new.sizes ≡ self.old.sizes }
        ensures faults { self.new.faults ≡ self.old.faults }
    {
        self.reach(path).ok()?;
        if !is_below(&self.sizes, path, from) {
            return Some(0);
        }
        match &self.opened {
            Some(opened) => read_some_at(&opened.file, from, into),
            None => None,
        }
    }
}

impl<'a, R: std::rt::Files> Files for RealFiles<'a, R>
where
    R::File: FileExt,
{
    ghost state = { λ s. untold_files s.faults (get_by_text s.sizes) };

    fn held(&self, _alloc: Global) -> Result<HeldFiles, AllocError> {
        Ok(HeldFiles::untold())
    }

    fn read(&mut self, alloc: Global, path: &str) -> Result<Vec<u8>, FileErr> {
        match read_file(self.rt, alloc, path) {
            Ok(bytes) => Ok(bytes),
            Err(error) => {
                self.faults = self.faults.saturating_add(1);
                Err(file_err(&error))
            }
        }
    }

    fn write(&mut self, _alloc: Global, path: &str, bytes: &[u8]) -> Result<(), FileErr> {
        match write_to(self.rt, path, bytes) {
            Ok(()) => Ok(()),
            Err(error) => {
                self.faults = self.faults.saturating_add(1);
                Err(file_err(&error))
            }
        }
    }

    fn size(&mut self, path: &str) -> Result<u64, Failed> {
        if let Ok(size) = self.measure(path) {
            return Ok(size);
        }
        self.faults = self.faults.saturating_add(1);
        Err(Failed)
    }

    fn read_at(&mut self, path: &str, from: u64, into: &mut [u8]) -> Result<usize, Failed> {
        if let Some(count) = self.read_from(path, from, into) {
            return Ok(count);
        }
        self.faults = self.faults.saturating_add(1);
        Err(Failed)
    }

    fn append(&mut self, _alloc: Global, path: &str, bytes: &[u8]) -> Result<(), FileErr> {
        match append_to(self.rt, path, bytes) {
            Ok(()) => Ok(()),
            Err(error) => {
                self.faults = self.faults.saturating_add(1);
                Err(file_err(&error))
            }
        }
    }
}
