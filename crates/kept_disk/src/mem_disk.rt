// A disk in memory, which keeps a record of its calls.
ghost use Rattle.std.specs.Prelude.{◌≡◌, ◌≤◌, true, false, [], OnOk, OnErr, None, length, string_bytes};
ghost use Rattle.std.specs.Option.{ForSome};
ghost use Rattle.kept_disk.specs.Images.{file_with};
ghost use Rattle.kept_disk.specs.LoggedFiles.{IsThere, OthersStay, calls_in, file_in};

use crate::disk::Disk;
use crate::disk_call::DiskCall;
use crate::disk_plan::DiskPlan;
use crate::logged_file::LoggedFile;
use crate::logged_files::{bytes_at, calls_at, make_file, put_file, sync_in, tear_in, write_in};
use outside::FileErr;
use std::alloc::{AllocError, Global};
use std::collections::BTreeMap;

/// A disk in memory. What it reads is always something that a crash may leave.
#[derive(Drop)]
pub struct MemDisk {
    alloc: Global,
    files: BTreeMap<String, LoggedFile>,
    attached: bool,
    path: String,
    sized: Option<u64>,
    plan: DiskPlan,
    ghost there: { attached ≡ true → IsThere files (string_bytes path) },
    ghost within: { ForSome sized (λ n. n ≤ length (file_in files (string_bytes path)).seen) },
}

impl MemDisk {
    ghost use Rattle.kept_disk.specs.Plan.{fresh_plan};

    /// A disk without files. The calls with these numbers fail, counted from 0, and each from `dead_from` on.
    pub fn new(alloc: Global, fails: Vec<u64>, dead_from: Option<u64>) -> Self
        ensures none { result.files.entries ≡ [] }
        ensures plan { result.plan ≡ fresh_plan fails dead_from }
    {
        MemDisk {
            alloc,
            files: BTreeMap::new(alloc),
            attached: false,
            path: String::new(alloc),
            sized: None,
            plan: DiskPlan::new(fails, dead_from),
        }
    }

    /// Puts a file there, all of its bytes on the disk, as a setup of a test does: it is no call of the disk, and no file is attached then.
    pub fn place(&mut self, path: &str, bytes: &[u8]) -> Result<(), AllocError>
        ensures ok { OnOk result (file_in self.new.files path.now ≡ file_with bytes.now) }
        ensures others { OthersStay self.old.files self.new.files path.now }
        ensures err { OnErr result (self.new.files.entries ≡ self.old.files.entries) }
        ensures attached { self.new.attached ≡ false }
        ensures plan { self.new.plan ≡ self.old.plan }
    {
        self.attached = false;
        self.sized = None;
        put_file(self.alloc, &mut self.files, path, bytes)
    }

    /// Another process has it now: no file is attached, and these calls fail. What was given to writes isn't lost by that.
    pub fn pass_on(&mut self, fails: Vec<u64>, dead_from: Option<u64>)
        ensures files { self.new.files ≡ self.old.files }
        ensures attached { self.new.attached ≡ false }
        ensures plan { self.new.plan ≡ fresh_plan fails dead_from }
    {
        self.attached = false;
        self.sized = None;
        self.plan = DiskPlan::new(fails, dead_from);
    }

    /// What a read gives of the file at this path: it is no call of the disk.
    pub fn bytes(&self, path: &str) -> &[u8]
        ensures { result.now ≡ (file_in self.now.files path.now).seen }
    {
        bytes_at(&self.files, path)
    }

    /// The calls on the file at this path that changed what a crash may leave of it, in order since it was placed: it is no call of the disk.
    pub fn calls(&self, path: &str) -> &[DiskCall]
        ensures { result.now ≡ calls_in self.now.files path.now }
    {
        calls_at(&self.files, path)
    }

    /// How many calls were made, failed ones too.
    pub fn calls_made(&self) -> u64
        ensures { result ≡ self.now.plan.calls }
    {
        self.plan.calls()
    }
}

impl Disk for MemDisk {
    ghost use Rattle.kept_disk.specs.MemDisk.{disk_state};

    ghost state = { disk_state };

    fn attach(&mut self, path: &str) -> Result<(), FileErr> {
        if self.plan.next_fails() {
            return Err(FileErr::Failed);
        }
        let name = String::from_str(self.alloc, path)?;
        make_file(self.alloc, &mut self.files, path)?;
        self.path = name;
        self.attached = true;
        self.sized = None;
        Ok(())
    }

    fn len(&mut self) -> Result<u64, FileErr> {
        if self.plan.next_fails() {
            return Err(FileErr::Failed);
        }
        let size = bytes_at(&self.files, &self.path).len() as u64;
        self.sized = Some(size);
        Ok(size)
    }

    fn read_at(&mut self, from: u64, into: &mut [u8]) -> Result<usize, FileErr> {
        if self.plan.next_fails() {
            return Err(FileErr::Failed);
        }
        if !self.sized.is_some_and(|size| from < size) {
            return Ok(0);
        }
        let rest = &bytes_at(&self.files, &self.path)[from as usize..];
        let count = rest.len().min(into.len()).min(7);
        into[..count].copy_from_slice(&rest[..count]);
        Ok(count)
    }

    fn write_at(&mut self, from: u64, bytes: &[u8]) -> Result<(), FileErr> {
        if self.plan.next_fails() {
            tear_in(&mut self.files, &self.path, from, bytes.len() as u64)?;
            return Err(FileErr::Failed);
        }
        Ok(write_in(self.alloc, &mut self.files, &self.path, from, bytes)?)
    }

    fn sync(&mut self) -> Result<(), FileErr> {
        if self.plan.next_fails() {
            return Err(FileErr::Failed);
        }
        Ok(sync_in(self.alloc, &mut self.files, &self.path)?)
    }
}
