// A file in memory, with a record of its calls.
ghost use Rattle.std.specs.Prelude.{◌≡◌, ◌++◌, replicate, IfOk, OnOk, OnErr};
ghost use Rattle.kept_disk.specs.Images.{IsImage, file_with, overlaid, settled};
ghost use Rattle.kept_disk.specs.Calls.{now_after};
ghost use Rattle.kept_disk.specs.Disk.{Synced, Tore, Wrote};

use crate::disk_call::DiskCall;
use std::alloc::{AllocError, Global};

/// A file in memory: what it has now, all of what was on the disk at first, and the calls since then that changed what a crash may leave. Its bytes are
/// always something that a crash may leave.
#[derive(Drop)]
pub(crate) struct LoggedFile {
    first: Vec<u8>,
    bytes: Vec<u8>,
    log: Vec<DiskCall>,
    ghost image: { IsImage (now_after (settled first.items) log.items) bytes.items },
}

// Puts `count` zeros after these bytes.
fn add_zeros(bytes: &mut Vec<u8>, count: usize) -> Result<(), AllocError>
    ensures { OnOk result (bytes.new.items ≡ bytes.old.items ++ replicate count 0) }
{
    for done in 0..count {
        bytes.push(0)?;
    }
    Ok(())
}

// Bytes with a piece laid over them from a place on; between them zeros.
fn overlay(alloc: Global, bytes: &[u8], from: usize, piece: &[u8]) -> Result<Vec<u8>, AllocError>
    ensures { IfOk result (λ made. made.items ≡ overlaid bytes.now from piece.now) }
{
    let start = from.min(bytes.len());
    let mut made = bytes[..start].to_vec(alloc)?;
    add_zeros(&mut made, from - start)?;
    made.extend_from_slice(piece)?;
    let end = from.saturating_add(piece.len()).min(bytes.len());
    made.extend_from_slice(&bytes[end..])?;
    Ok(made)
}

impl LoggedFile {
    ghost use Rattle.kept_disk.specs.LoggedFile.{file_of};

    /// A file with these bytes, all of them on the disk.
    pub(crate) fn new(alloc: Global, bytes: &[u8]) -> Result<Self, AllocError>
        ensures { IfOk result (λ f. file_of f ≡ file_with bytes.now) }
    {
        let first = bytes.to_vec(alloc)?;
        let bytes = bytes.to_vec(alloc)?;
        Ok(LoggedFile {
            first,
            bytes,
            log: Vec::new(alloc),
        })
    }

    /// What a read gives.
    pub(crate) fn bytes(&self) -> &[u8]
        ensures { result.now ≡ self.now.bytes.items }
    {
        &self.bytes
    }

    /// The calls that changed what a crash may leave, in order.
    pub(crate) fn log(&self) -> &[DiskCall]
        ensures { result.now ≡ self.now.log.items }
    {
        &self.log
    }

    /// Writes a piece from a place on.
    pub(crate) fn write(&mut self, alloc: Global, from: u64, piece: &[u8]) -> Result<(), AllocError>
        ensures ok { OnOk result (Wrote (file_of self.old) (file_of self.new) from piece.now) }
        ensures err { OnErr result (file_of self.new ≡ file_of self.old) }
    {
        self.log.reserve(1)?;
        let made = overlay(alloc, &self.bytes, from as usize, piece)?;
        self.log.push_reserved(DiskCall::Gave {
            from,
            count: piece.len() as u64,
        });
        self.bytes = made;
        Ok(())
    }

    /// A write of `count` bytes from a place on has failed: none of them is there now, and a crash may leave any.
    pub(crate) fn tear(&mut self, from: u64, count: u64) -> Result<(), AllocError>
        ensures ok { OnOk result (Tore (file_of self.old) (file_of self.new) from count) }
        ensures bytes { self.new.bytes.items ≡ self.old.bytes.items }
        ensures err { OnErr result (file_of self.new ≡ file_of self.old) }
    {
        self.log.reserve(1)?;
        self.log.push_reserved(DiskCall::Gave { from, count });
        Ok(())
    }

    /// Brings all bytes to the disk.
    pub(crate) fn sync(&mut self, alloc: Global) -> Result<(), AllocError>
        ensures ok { OnOk result (Synced (file_of self.old) (file_of self.new)) }
        ensures err { OnErr result (file_of self.new ≡ file_of self.old) }
    {
        self.log.reserve(1)?;
        let kept = self.bytes.to_vec(alloc)?;
        self.log.push_reserved(DiskCall::Kept(kept));
        Ok(())
    }
}
