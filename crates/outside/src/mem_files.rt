// Files in memory.
ghost use Rattle.std.specs.Prelude.{◌≡◌, ◌⊎◌, [], ◌∷◌, ◌++◌, option_map, OnOk, OnErr};
ghost use Rattle.std.specs.FinMap.{empty};
ghost use Rattle.outside.specs.FileCall.{file_calls_of};
ghost use Rattle.outside.specs.Files.{file_at, with_file};

use crate::fault_plan::FaultPlan;
use crate::file_call::{FileAction, FileCall};
use crate::mem_file::{MemFile, bytes_at, copy_files, copy_from, extend_file, measure, put_file};
use crate::{Failed, FileErr, Files, HeldFiles};
use std::alloc::{AllocError, Global};
use std::collections::BTreeMap;

/// A store of files in memory.
#[derive(Drop)]
pub struct MemFiles {
    alloc: Global,
    files: BTreeMap<String, MemFile>,
    log: Vec<FileCall>,
    plan: FaultPlan,
}

impl MemFiles {
    ghost use Rattle.outside.specs.MemFiles.{files_in, log_in, plan_in};
    ghost use Rattle.outside.specs.Plan.{fresh_plan, Went};

    /// An empty store. The calls with these numbers fail, counted from 0.
    pub fn new(alloc: Global, fails: Vec<u64>) -> Self
        ensures empty_store { files_in result ≡ empty }
        ensures plan { plan_in result ≡ fresh_plan fails }
    {
        MemFiles {
            alloc,
            files: BTreeMap::new(alloc),
            log: Vec::new(alloc),
            plan: FaultPlan::new(fails),
        }
    }

    /// Puts a file there, as a setup of a test does: it is no call of the store.
    pub fn place(&mut self, alloc: Global, path: &str, bytes: &[u8]) -> Result<(), AllocError>
        ensures ok { OnOk result (files_in self.new ≡ with_file (files_in self.old) path.now bytes.now) }
        ensures err { OnErr result (files_in self.new ≡ files_in self.old) }
        ensures plan { plan_in self.new ≡ plan_in self.old }
    {
        put_file(alloc, &mut self.files, path, bytes)
    }

    /// The bytes of a file, if it is there: it is no call of the store.
    pub fn get(&self, path: &str) -> Option<&[u8]>
        ensures { option_map (λ b. b.now) result ≡ file_at (files_in self.now) path.now }
    {
        bytes_at(&self.files, path)
    }

    /// How many calls were made, failed ones too.
    pub fn calls_made(&self) -> u64
        ensures { result ≡ (plan_in self.now).calls }
    {
        self.plan.calls()
    }

    /// The calls that were made, in order, failed ones too. It is shorter than `calls_made` says where there was no
    /// memory to keep one.
    pub fn log(&self) -> &[FileCall]
        ensures { file_calls_of result.now ≡ log_in self.now }
    {
        &self.log
    }

    // Logs and counts one more call, and a fault where it is one that is to fail. Says whether it is.
    fn next_fails(&mut self, action: FileAction, path: &str) -> bool
        ensures plan { Went (plan_in self.old) (plan_in self.new) result }
        ensures files { self.new.files ≡ self.old.files }
        ensures logged { (log_in self.new ≡ log_in self.old ++ (action, path.now) ∷ []) ⊎ (log_in self.new ≡ log_in self.old) }
    {
        if let Ok(path) = String::from_str(self.alloc, path) {
            let _ = self.log.push(FileCall { action, path });
        }
        self.plan.next_fails()
    }
}

impl Files for MemFiles {
    ghost use Rattle.outside.specs.MemFiles.{files_state};

    ghost state = { files_state };

    fn held(&self, alloc: Global) -> Result<HeldFiles, AllocError> {
        Ok(HeldFiles::told(copy_files(alloc, &self.files)?))
    }

    fn read(&mut self, alloc: Global, path: &str) -> Result<Vec<u8>, FileErr> {
        if self.next_fails(FileAction::Read, path) {
            return Err(FileErr::Failed);
        }
        match bytes_at(&self.files, path) {
            Some(bytes) => Ok(bytes.to_vec(alloc)?),
            None => {
                self.plan.raise();
                Err(FileErr::Failed)
            }
        }
    }

    fn write(&mut self, alloc: Global, path: &str, bytes: &[u8]) -> Result<(), FileErr> {
        if self.next_fails(FileAction::Write, path) {
            return Err(FileErr::Failed);
        }
        put_file(alloc, &mut self.files, path, bytes)?;
        Ok(())
    }

    fn size(&mut self, path: &str) -> Result<u64, Failed> {
        if self.next_fails(FileAction::Size, path) {
            return Err(Failed);
        }
        match measure(&mut self.files, path) {
            Some(size) => Ok(size),
            None => {
                self.plan.raise();
                Err(Failed)
            }
        }
    }

    fn read_at(&mut self, path: &str, from: u64, into: &mut [u8]) -> Result<usize, Failed> {
        if self.next_fails(FileAction::ReadAt, path) {
            return Err(Failed);
        }
        match copy_from(&self.files, path, from, into) {
            Some(count) => Ok(count),
            None => {
                self.plan.raise();
                Err(Failed)
            }
        }
    }

    fn append(&mut self, _alloc: Global, path: &str, bytes: &[u8]) -> Result<(), FileErr> {
        if self.next_fails(FileAction::Append, path) {
            return Err(FileErr::Failed);
        }
        if extend_file(&mut self.files, path, bytes)? {
            return Ok(());
        }
        self.plan.raise();
        Err(FileErr::Failed)
    }
}
