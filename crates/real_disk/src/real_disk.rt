// A file of the operating system that is read and written at any place, and synced.
ghost use Rattle.std.specs.Prelude.{◌≡◌, ◌<◌, ◌≤◌, None, IfOk, length, string_bytes};
ghost use Rattle.outside.specs.Plan.{one_more};
ghost use Rattle.kept_disk.specs.Disk.{IsBelow};

use kept_disk::Disk;
use outside::FileErr;
use std::alloc::Global;
use std::fs::{File, OpenOptions};
use std::io;
use std::os::unix::fs::FileExt;

/// A file that stands open under its lock.
#[derive(Drop)]
pub(crate) struct Held {
    path: String,
    file: File,
}

/// A disk of the operating system. Nothing is told of it but which file is attached and the size that was answered; each error is counted.
///
/// An attached file is held under its lock: where a process holds it already, `attach` is a fault. That after a successful sync a crash leaves all
/// bytes, and that one before it changes only what was given to writes, is trusted of the operating system and of the device.
#[derive(Drop)]
pub struct RealDisk<'a> {
    rt: &'a HostRuntime,
    alloc: Global,
    held: Option<Held>,
    size: Option<u64>,
    faults: u64,
}

// Want of memory is an answer of its own.
fn file_err(error: &io::Error) -> FileErr {
    match error.kind() {
        io::ErrorKind::OutOfMemory => FileErr::Memory,
        _ => FileErr::Failed,
    }
}

// The folder in which the file at this path lies.
fn folder_of(path: &str) -> &str {
    match path.rfind('/') {
        Some(0) => "/",
        Some(end) => &path[..end],
        None => ".",
    }
}

// Opens a file to read and write, which is made where it is missing, and holds it under its lock. A file that is new has its name on the disk then.
fn open_held(rt: &HostRuntime, alloc: Global, path: &str) -> io::Result<Held>
    ensures { IfOk result (λ held. string_bytes held.path ≡ path.now) }
{
    let file = OpenOptions::new()
        .read(true)
        .write(true)
        .create(true)
        .open(rt, path)?;
    file.try_lock()?;
    File::open(rt, folder_of(path))?.sync_all()?;
    let path = String::from_str(alloc, path)?;
    Ok(Held { path, file })
}

// The first bytes of the slice from the file's bytes from a place on, as many as lie below the size.
fn fill(file: &File, size: u64, from: u64, into: &mut [u8]) -> io::Result<usize>
    requires { from < size }
    ensures most { IfOk result (λ k. k ≤ length into.old) }
    ensures some { IfOk result (λ k. 0 < length into.old → 0 < k) }
{
    let count = (size - from).min(into.len() as u64) as usize;
    file.read_exact_at(&mut into[..count], from)?;
    Ok(count)
}

impl<'a> RealDisk<'a> {
    /// The disk that this runtime reaches. No file is attached.
    pub fn new(rt: &'a HostRuntime, alloc: Global) -> Self
        ensures held { result.held ≡ None }
        ensures faults { result.faults ≡ 0 }
    {
        RealDisk {
            rt,
            alloc,
            held: None,
            size: None,
            faults: 0,
        }
    }
}

impl<'a> RealDisk<'a> {
    // Counts a fault, and says how a call has failed by it.
    fn fault(&mut self, error: &io::Error) -> FileErr
        ensures faults { self.new ≡ record self.old { faults = one_more self.old.faults } }
        ensures later { self.old.faults ≤ self.new.faults }
    {
        self.faults = self.faults.saturating_add(1);
        file_err(error)
    }

    // The attached file.
    fn file(&self) -> io::Result<&File> {
        match &self.held {
            Some(held) => Ok(&held.file),
            None => Err(io::Error::from(io::ErrorKind::NotFound)),
        }
    }

    // The size of the attached file.
    fn measure(&self) -> io::Result<u64> {
        Ok(self.file()?.metadata()?.len())
    }

    // The attached file's bytes from a place on, below the size that was answered.
    fn read_from(&self, from: u64, into: &mut [u8]) -> io::Result<usize>
        ensures most { IfOk result (λ k. k ≤ length into.old) }
        ensures some { IfOk result (λ k. 0 < length into.old → IsBelow self.now.size from → 0 < k) }
        ensures none { IfOk result (λ k. 0 < k → IsBelow self.now.size from) }
    {
        match self.size {
            Some(size) if from < size => fill(self.file()?, size, from, into),
            _ => Ok(0),
        }
    }

    // Writes these bytes to the attached file.
    fn write_from(&self, from: u64, bytes: &[u8]) -> io::Result<()> {
        self.file()?.write_all_at(bytes, from)
    }

    // Brings the attached file to the disk.
    fn settle(&self) -> io::Result<()> {
        self.file()?.sync_all()
    }
}

impl<'a> Disk for RealDisk<'a> {
    ghost use Rattle.real_disk.specs.Untold.{untold_disk};

    ghost state = { λ s. untold_disk s.held s.size s.faults };

    fn attach(&mut self, path: &str) -> Result<(), FileErr> {
        match open_held(self.rt, self.alloc, path) {
            Ok(held) => {
                self.held = Some(held);
                self.size = None;
                Ok(())
            }
            Err(error) => Err(self.fault(&error)),
        }
    }

    fn len(&mut self) -> Result<u64, FileErr> {
        match self.measure() {
            Ok(size) => {
                self.size = Some(size);
                Ok(size)
            }
            Err(error) => Err(self.fault(&error)),
        }
    }

    fn read_at(&mut self, from: u64, into: &mut [u8]) -> Result<usize, FileErr> {
        match self.read_from(from, into) {
            Ok(count) => Ok(count),
            Err(error) => Err(self.fault(&error)),
        }
    }

    fn write_at(&mut self, from: u64, bytes: &[u8]) -> Result<(), FileErr> {
        match self.write_from(from, bytes) {
            Ok(()) => Ok(()),
            Err(error) => Err(self.fault(&error)),
        }
    }

    fn sync(&mut self) -> Result<(), FileErr> {
        match self.settle() {
            Ok(()) => Ok(()),
            Err(error) => Err(self.fault(&error)),
        }
    }
}
